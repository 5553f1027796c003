// Sessions: rules posted in scopes, asks, and the choices of the shown answer, over any logic. `calls` has the calls with
// their contracts; `play` makes a whole list of calls, and its contract is the law over runs.

#![tactic(auto)]

ghost use Rattle.std.specs.Prelude.{◌≤◌, vec_capacity};

use bounded::Bounded;
use logic::Equation;
use rules::Literal;
use std::error::Error;
use std::fmt;
use walk::{Rule, Word};

mod calls;
mod plays;

pub use plays::play;

// How many rules may stand, and how many scopes may be open.
pub const RULES: usize = 256;

pub const SCOPES: usize = 32;

// Why a call was refused. A refused call changes nothing.
#[derive(Clone, Copy, PartialEq, Eq, Debug)]
pub enum Refusal {
    // A rule of over 16 literals.
    TooLong,
    // An equation that the logic lacks.
    Foreign,
    // Nothing is told of that number.
    Untold,
    // No such choice.
    NoChoice,
    // A 257th standing rule.
    ManyRules,
    // A 33rd scope.
    ManyScopes,
    // A close with no scope open.
    NoScope,
    // No answer is shown.
    NothingShown,
}

// A call of a session, as a value.
#[derive(Clone, Copy)]
pub enum Call<'a> {
    Post(&'a [Literal]),
    Open,
    Close,
    Ask(u64),
    Choice(usize),
}

// The reply to a call that is not refused.
#[derive(Clone, Copy, PartialEq, Eq, Debug)]
pub enum Reply {
    // A post, open or close was granted.
    Granted,
    // The word of an ask, and its trials.
    Answered(Word, u64),
    // The left and the right of a choice.
    Chosen(u16, u16),
}

// The standing rules.
pub(crate) type Rules = Bounded<Rule, RULES>;

// A session has taken its logic over for good.
#[derive(Drop)]
pub struct Session<L> {
    logic: L,
    // The standing rules, oldest first.
    rules: Rules,
    // For each open scope how many rules stood when it was opened.
    scopes: Bounded<usize, SCOPES>,
    // What stands in the logic: the choices of the shown answer, and else nothing. An `Option` would lose their memory, which
    // is taken once, where nothing is shown: so whether an answer is shown stands beside them.
    choices: Vec<Equation>,
    shown: bool,
    ghost room: { 256 ≤ vec_capacity choices },
}

impl fmt::Display for Refusal {
    fn fmt<W: fmt::Write>(&self, f: &mut fmt::Formatter<W>) -> fmt::Result {
        write!(f, "refused {}", self.number())
    }
}

impl Error for Refusal {}

impl fmt::Display for Reply {
    fn fmt<W: fmt::Write>(&self, f: &mut fmt::Formatter<W>) -> fmt::Result {
        match self {
            Reply::Granted => write!(f, "granted"),
            Reply::Answered(word, trials) => write!(f, "{word} {trials}"),
            Reply::Chosen(left, right) => write!(f, "{left} = {right}"),
        }
    }
}

impl<'a> fmt::Display for Call<'a> {
    fn fmt<W: fmt::Write>(&self, f: &mut fmt::Formatter<W>) -> fmt::Result {
        match self {
            Call::Post(literals) => {
                write!(f, "post")?;
                for (place, literal) in literals.iter().enumerate() {
                    let bar = if place == 0 { " " } else { " | " };
                    write!(f, "{bar}{literal}")?;
                }
                Ok(())
            }
            Call::Open => write!(f, "open"),
            Call::Close => write!(f, "close"),
            Call::Ask(budget) => write!(f, "ask {budget}"),
            Call::Choice(k) => write!(f, "choice {k}"),
        }
    }
}
