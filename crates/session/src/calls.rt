// The calls of a session.

ghost use Rattle.std.specs.Prelude.{◌≡◌, ◌<◌, true, false, List, [], ◌∷◌, ◌++◌, length, IfOk, Decides, MatchResult};
ghost use Rattle.logic.specs.Answers.{Keeps, Kept};
ghost use Rattle.rules.specs.Rules.{Had};
ghost use Rattle.session.specs.Calls.{Asking, Answer};
ghost use Rattle.session.specs.Calls.Asking.{post, opens, closes, ask, choice};
ghost use Rattle.session.specs.Calls.Answer.{answered};
ghost use Rattle.session.specs.Replies.{refusal_number, granted_or, chosen_or};
ghost use Rattle.session.specs.Led.{shown_of};
ghost use Rattle.session.specs.Tells.{Tells};
ghost use Rattle.session.specs.LedBy.{LedBy, Continues};

use crate::{Refusal, Rules, Session};
use bounded::Bounded;
use logic::{Kind, Logic, ROOM, TellingLogic};
use rules::Literal;
use std::alloc::{AllocError, Global};
use walk::{Rule, Word};

// Whether the logic has every equation of the rule, denied or not.
fn has_all<L: Logic>(logic: &L, rule: &[Literal]) -> bool
    ensures { L.Logic.lawful logic.now → Decides result (Had (L.Logic.theory logic.now) rule.now) }
{
    rule.iter().all(|literal| logic.has(literal.equation()))
}

// Adds a rule at the end, unless there is no room for it; then nothing changes.
fn add(rules: &mut Rules, rule: Rule) -> Result<(), Refusal>
    ensures { MatchResult result (λ _. (length rules.old.vec.items < 256) × (rules.new.vec.items ≡ rules.old.vec.items ++ (rule ∷ []))) (λ e. (length rules.old.vec.items ≡ 256) × (refusal_number e ≡ 31) × (rules.new.vec.items ≡ rules.old.vec.items)) }
{
    rules.push(rule).map_err(|_| Refusal::ManyRules)
}

impl<L: Logic + Drop> Session<L> {
    // Begins a session on the logic, with nothing standing in it. It takes all the memory that the session ever needs.
    pub fn new(heap: Global, logic: L) -> Result<Session<L>, AllocError>
        ensures keeps { L.Logic.lawful logic → IfOk result (λ s. Kept (L.Logic.theory logic) (L.Logic.theory s.logic) (L.Logic.telling logic) (L.Logic.telling s.logic) (L.Logic.lawful s.logic)) }
        ensures begins { L.Logic.lawful logic → IfOk result (λ s. LedBy L.Logic s [] []) }
    {
        let mut logic = logic;
        let rules = Bounded::new(heap)?;
        let scopes = Bounded::new(heap)?;
        let choices = Vec::with_capacity(heap, ROOM)?;
        logic.back(0);
        Ok(Session {
            logic,
            rules,
            scopes,
            choices,
            shown: false,
        })
    }

    // Puts a shown answer away, and takes its choices back.
    fn put_away(&mut self)
        ensures keeps { Keeps L.Logic.theory L.Logic.telling L.Logic.lawful self.old.logic self.new.logic }
        ensures bare { L.Logic.lawful self.old.logic → L.Logic.stands self.new.logic ≡ [] }
        ensures rules { self.new.rules ≡ self.old.rules }
        ensures scopes { self.new.scopes ≡ self.old.scopes }
        ensures choices { self.new.choices.items ≡ [] }
        ensures shown { self.new.shown ≡ false }
    {
        self.logic.back(0);
        self.choices.clear();
        self.shown = false;
    }

    // Adds a rule at the end. Refused with 11, 12, 31, in this order.
    pub fn post(&mut self, literals: &[Literal]) -> Result<(), Refusal>
        ensures { Continues L.Logic self.old (post literals.now) (granted_or result) self.new }
    {
        let Some(rule) = Rule::new(literals) else {
            return Err(Refusal::TooLong);
        };
        if !has_all(&self.logic, literals) {
            return Err(Refusal::Foreign);
        }
        add(&mut self.rules, rule)?;
        self.put_away();
        Ok(())
    }

    // Marks a scope. Refused with 32.
    pub fn open(&mut self) -> Result<(), Refusal>
        ensures { Continues L.Logic self.old opens (granted_or result) self.new }
    {
        self.scopes
            .push(self.rules.len())
            .map_err(|_| Refusal::ManyScopes)?;
        self.put_away();
        Ok(())
    }

    // Removes the newest mark and the rules posted since. Refused with 33.
    pub fn close(&mut self) -> Result<(), Refusal>
        ensures { Continues L.Logic self.old closes (granted_or result) self.new }
    {
        let Some(start) = self.scopes.pop() else {
            return Err(Refusal::NoScope);
        };
        self.put_away();
        self.rules.truncate(start);
        Ok(())
    }

    // Runs the walk with at most `budget` trials: the word of the answer, and the trials made. It is never refused.
    pub fn ask(&mut self, budget: u64) -> (Word, u64)
        ensures { Continues L.Logic self.old (ask budget) (answered result.0 result.1) self.new }
    {
        self.put_away();
        let (word, trials) = walk::ask(
            &mut self.logic,
            self.rules.as_slice(),
            &mut self.choices,
            budget,
        );
        self.shown = word.is_found();
        (word, trials)
    }

    // The left and the right of the k-th choice of the shown answer, from 0. Refused with 34, then 18.
    pub fn choice(&self, k: usize) -> Result<(u16, u16), Refusal>
        ensures { Continues L.Logic self.now (choice k) (chosen_or result) self.now }
    {
        if !self.shown {
            return Err(Refusal::NothingShown);
        }
        match self.choices.get(k) {
            Some(e) => Ok((e.left, e.right)),
            None => Err(Refusal::NoChoice),
        }
    }
}

impl<L: TellingLogic + Drop> Session<L> {
    // What the example of the shown answer has at the place of the number. Refused with 34, then 17.
    pub fn tell(&self, number: u16) -> Result<(Kind, u32), Refusal>
        ensures { (cs : List Asking) (rs : List Answer) → LedBy L.Logic self.now cs rs → Tells (L.Logic.telling self.now.logic) (shown_of self.now.shown self.now.choices.items) number result }
    {
        if !self.shown {
            return Err(Refusal::NothingShown);
        }
        self.logic.tell(number).map_err(|_| Refusal::Untold)
    }
}

impl Refusal {
    // The number by which a refusal is known to users. Each layer has refusals of its own, and gives their numbers itself.
    pub fn number(self) -> u8
        ensures { result ≡ refusal_number self }
    {
        match self {
            Refusal::TooLong => 11,
            Refusal::Foreign => 12,
            Refusal::Untold => 17,
            Refusal::NoChoice => 18,
            Refusal::ManyRules => 31,
            Refusal::ManyScopes => 32,
            Refusal::NoScope => 33,
            Refusal::NothingShown => 34,
        }
    }
}
