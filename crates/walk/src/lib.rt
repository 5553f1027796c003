// The walk of an ask, over any logic. `ask` runs it, and its contract says that the answer is the one of the relation in
// the crate `rules`.

#![tactic(auto)]

ghost use Rattle.std.specs.Prelude.{◌≡◌, ◌+◌, ◌<◌, ◌≤◌, [], length, IfSome, MatchBool, vec_len, vec_capacity};
ghost use Rattle.logic.specs.Answers.{Keeps};
ghost use Rattle.rules.specs.Rules.{width as width_of, HadAll};
ghost use Rattle.rules.specs.Marks.{Ready};
ghost use Rattle.walk.specs.Written.{written};
ghost use Rattle.walk.specs.Picks.{Leaves, Settles, Judged, Picks};
ghost use Rattle.walk.specs.Walked.{Tried, is_found, IfNone, Walked, Asked};

use logic::{Assumed, Equation, Logic};
use rules::Literal;
use std::fmt;

mod rule;

pub use rule::{LITERALS, Rule};

// The word of an answer.
#[derive(Clone, Copy, PartialEq, Eq, Debug)]
pub enum Word {
    // Choices were found under which an own world meets every rule.
    Found,
    // No own world meets every rule.
    None,
    // The budget was spent.
    Spent,
}

impl Word {
    // Whether choices were found.
    pub fn is_found(self) -> bool
        ensures { result ≡ is_found self }
    {
        matches!(self, Word::Found)
    }
}

impl fmt::Display for Word {
    fn fmt<W: fmt::Write>(&self, f: &mut fmt::Formatter<W>) -> fmt::Result {
        match self {
            Word::Found => write!(f, "found"),
            Word::None => write!(f, "none"),
            Word::Spent => write!(f, "spent"),
        }
    }
}

// Asks whether the rules can hold together, with at most `budget` trials. Nothing stands in the logic before; after it the
// choices stand in the logic and in `choices`, and unless the word is found there are none.
pub fn ask<L: Logic>(
    logic: &mut L,
    rules: &[Rule],
    choices: &mut Vec<Equation>,
    budget: u64,
) -> (Word, u64)
    ensures capacity { vec_capacity choices.new ≡ vec_capacity choices.old }
    ensures asks { L.Logic.lawful logic.old → L.Logic.stands logic.old ≡ [] → HadAll (L.Logic.theory logic.old) (written rules.now) → length rules.now ≤ 256 → 256 ≤ vec_capacity choices.old → Asked L.Logic (written rules.now) budget logic.old result.0 result.1 logic.new choices.new.items }
{
    choices.clear();
    let depth = rules.len().min(choices.capacity());
    let (word, trials) = walk(logic, rules, choices, budget, 0, depth);
    if let Word::Spent = word {
        logic.back(0);
        choices.clear();
    }
    (word, trials)
}

// The walk from where the logic stands, with `made` trials behind it, and at most `depth` rules still to be taken. Its
// word is none at a dead end; the equations that it took are taken back there.
fn walk<L: Logic>(
    logic: &mut L,
    rules: &[Rule],
    choices: &mut Vec<Equation>,
    budget: u64,
    made: u64,
    depth: usize,
) -> (Word, u64)
    requires reserved { vec_len choices.old + depth ≤ vec_capacity choices.old }
    requires affords { made ≤ budget }
    ensures trials { result.1 ≤ budget }
    ensures capacity { vec_capacity choices.new ≡ vec_capacity choices.old }
    ensures bare { IfNone result.0 (choices.new.items ≡ choices.old.items) }
    ensures walks { L.Logic.lawful logic.old → choices.old.items ≡ L.Logic.stands logic.old → Ready (L.Logic.theory logic.old) (written rules.now) (L.Logic.stands logic.old) depth → Walked L.Logic (written rules.now) budget logic.old made result.0 result.1 logic.new choices.new.items }
{
    let Some(k) = pick(logic, rules) else {
        return (Word::Found, made);
    };
    // A lawful logic is never this deep with an open rule.
    if depth == 0 {
        return (Word::None, made);
    }
    let kept = choices.len();
    let mut trials = made;
    let rule = rules[k].literals();
    for literal in rule {
        if let Literal::Equal(e) = *literal {
            if trials == budget {
                return (Word::Spent, trials);
            }
            trials += 1;
            if takes(logic, e) {
                choices.push_reserved(e);
                let (word, made) = walk(logic, rules, choices, budget, trials, depth - 1);
                trials = made;
                match word {
                    Word::None => {
                        logic.back(kept);
                        choices.truncate(kept);
                    }
                    Word::Found | Word::Spent => return (word, trials),
                }
            }
        }
    }
    (Word::None, trials)
}

// One trial: whether the logic takes the equation.
fn takes<L: Logic>(logic: &mut L, e: Equation) -> bool
    ensures keeps { Keeps L.Logic.theory L.Logic.telling L.Logic.lawful logic.old logic.new }
    ensures tried { L.Logic.lawful logic.old → Tried (L.Logic.theory logic.old) (L.Logic.stands logic.old) e result (L.Logic.stands logic.new) }
{
    matches!(logic.assume(e), Ok(Assumed::Taken))
}

// The open rule with the fewest equations, the earliest among equals.
fn pick<L: Logic>(logic: &L, rules: &[Rule]) -> Option<usize>
    ensures within { IfSome result (λ k. k < length rules.now) }
    ensures picks { L.Logic.lawful logic.now → Picks (L.Logic.theory logic.now) (L.Logic.stands logic.now) (written rules.now) result }
{
    let mut best: Option<(usize, usize)> = None;
    for (i, rule) in rules.iter().enumerate() {
        let rule = rule.literals();
        if is_open(logic, rule) {
            let wide = width(rule);
            if best.is_none_or(|(_, least)| wide < least) {
                best = Some((i, wide));
            }
        }
    }
    best.map(|(k, _)| k)
}

// Whether the rule is open: its denied equations are all forced, and none of its equations is.
fn is_open<L: Logic>(logic: &L, rule: &[Literal]) -> bool
    ensures { L.Logic.lawful logic.now → Judged (L.Logic.theory logic.now) (L.Logic.stands logic.now) rule.now result }
{
    rule.iter().all(|literal| leaves_open(logic, *literal))
}

// Whether the literal leaves its rule open, and does not settle it.
fn leaves_open<L: Logic>(logic: &L, literal: Literal) -> bool
    ensures { L.Logic.lawful logic.now → MatchBool result (Leaves (L.Logic.theory logic.now) (L.Logic.stands logic.now) literal) (Settles (L.Logic.theory logic.now) (L.Logic.stands logic.now) literal) }
{
    match literal {
        Literal::Equal(e) => !logic.forced(e),
        Literal::Denied(e) => logic.forced(e),
    }
}

// How many equations a rule has, repeats counted.
fn width(rule: &[Literal]) -> usize
    ensures { result ≡ width_of rule.now }
{
    rule.iter()
        .filter(|literal| matches!(literal, Literal::Equal(_)))
        .count()
}
