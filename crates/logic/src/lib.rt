// What a logic is: the equations that it has, the worlds that are its own, which equations are true in each, and
// the equations that stand. The trait `Logic` is the interface that the search is written over; `TellingLogic` adds
// an example that can be told. The definitions that the contracts cite are in specs/.

#![tactic(auto)]

ghost use Rattle.std.specs.Prelude.{◌≡◌, ℕ, ◌≤◌, List, length, take, Decides};
ghost use Rattle.logic.specs.declared.Equation.{Equation};
ghost use Rattle.logic.specs.declared.Refusal.TheVariants as R;
ghost use Rattle.logic.specs.Trees.{World};
ghost use Rattle.logic.specs.Theories.{Theory, Forced, Freest, FreestAt};
ghost use Rattle.logic.specs.Refusals.{refusal_number};
ghost use Rattle.logic.specs.Tellings.Told.{refused};
ghost use Rattle.logic.specs.Tellings.{Told, Telling, Names, silent, kind_number, answer_of};
ghost use Rattle.logic.specs.Answers.{Keeps, Assumes, outcome_of};

use bounded::Full;
use std::error::Error;
use std::fmt;

// How many equations may stand in a logic.
pub const ROOM: usize = 256;

// A pair of numbers, left and right. What it says is the logic's affair.
#[derive(Clone, Copy, PartialEq, Eq, Debug)]
pub struct Equation {
    pub left: u16,
    pub right: u16,
}

impl Equation {
    // The equation between two numbers.
    pub fn new(left: u16, right: u16) -> Equation
        ensures { (result.left ≡ left) × (result.right ≡ right) }
    {
        Equation { left, right }
    }
}

impl fmt::Display for Equation {
    fn fmt<W: fmt::Write>(&self, f: &mut fmt::Formatter<W>) -> fmt::Result {
        write!(f, "{} = {}", self.left, self.right)
    }
}

// How a granted `assume` came out.
#[derive(Clone, Copy, PartialEq, Eq, Debug)]
pub enum Assumed {
    // The equation stands now, as the newest.
    Taken,
    // No own world makes the standing equations and this one true.
    Clash,
}

// Why a call was refused. A refused call changes nothing.
#[derive(Clone, Copy, PartialEq, Eq, Debug)]
pub enum Refusal {
    // The logic lacks the equation.
    Foreign,
    // Nothing is told of that number.
    Untold,
    // A 257th standing equation.
    Full,
}

impl Refusal {
    // The number by which a refusal is known to users.
    pub fn number(self) -> u8
        ensures { result ≡ refusal_number self }
    {
        match self {
            Refusal::Foreign => 12,
            Refusal::Untold => 17,
            Refusal::Full => 38,
        }
    }
}

impl fmt::Display for Refusal {
    fn fmt<W: fmt::Write>(&self, f: &mut fmt::Formatter<W>) -> fmt::Result {
        write!(f, "refused {}", self.number())
    }
}

impl Error for Refusal {}

// Standing equations without room for one more.
impl From<Full> for Refusal {
    ghost from_gives = { λ _ r. r ≡ R.Full };

    fn from(_full: Full) -> Self {
        Self::Full
    }
}

// What the number beside it names.
#[derive(Clone, Copy, PartialEq, Eq, Debug)]
pub enum Kind {
    // The tower of that height: so many steps over base.
    Tower,
    // The value of the term of that number.
    Term,
}

impl Kind {
    // The number of the kind.
    pub fn number(self) -> u8
        ensures { result ≡ kind_number self }
    {
        match self {
            Kind::Tower => 0,
            Kind::Term => 1,
        }
    }
}

// What stands before the number in a line: `up` before a height, `is term` before a term.
impl fmt::Display for Kind {
    fn fmt<W: fmt::Write>(&self, f: &mut fmt::Formatter<W>) -> fmt::Result {
        match self {
            Kind::Tower => write!(f, "up"),
            Kind::Term => write!(f, "is term"),
        }
    }
}

// A logic, by its theory and its standing equations. Every promise is made of a lawful value: `lawful` is the
// representation invariant, each public constructor gives it and each call keeps it. Where a type carries its whole
// invariant in itself, every value is lawful.
pub trait Logic {
    // The three fixed things: which equations it has, which worlds are its own, what is true in each.
    ghost theory: { Self → Theory };

    // What it tells, fixed too; a logic that can't tell leaves it silent.
    ghost telling: { Self → Telling } = { λ _. silent };

    // The standing equations, oldest first.
    ghost stands: { Self → List Equation };

    ghost lawful: { Self → Type 0 };

    // Whether the logic has the equation.
    fn has(&self, e: Equation) -> bool
        ensures { lawful self.now → result ≡ (theory self.now).has e };

    // Whether the logic has the equation, and every own world that makes the standing equations true makes it true.
    fn forced(&self, e: Equation) -> bool
        ensures { lawful self.now → Decides result (Forced (theory self.now) (stands self.now) e) };

    // How many equations stand.
    fn standing(&self) -> usize
        ensures { lawful self.now → result ≡ length (stands self.now) };

    // Lets the equation stand as the newest, unless it is refused or clashes; then nothing changes.
    fn assume(&mut self, e: Equation) -> Result<Assumed, Refusal>
        ensures keeps { Keeps theory telling lawful self.old self.new }
        ensures assumes { lawful self.old → Assumes (theory self.old) (stands self.old) e (outcome_of result) (stands self.new) };

    // Keeps the oldest n standing equations, or all where fewer stand.
    fn back(&mut self, n: usize)
        ensures keeps { Keeps theory telling lawful self.old self.new }
        ensures oldest { lawful self.old → stands self.new ≡ take n (stands self.old) };

    // At most 256 equations stand.
    ghost few: { (s : Self) → lawful s → length (stands s) ≤ 256 };

    // In each state some own world makes every standing equation true, and of the equations that the logic has only
    // the forced ones.
    ghost freest: { (s : Self) → lawful s → Freest (theory s) (stands s) };
}

// A logic that can also tell its example: the told world, a freest world.
pub trait TellingLogic: Logic {
    ghost told: { Self → World };

    // What the told world gives to the number's place: a kind and a number, side by side, which is the fixed form of it.
    fn tell(&self, number: u16) -> Result<(Kind, u32), Refusal>
        ensures { Self.lawful self.now → (Self.telling self.now).answer (Self.stands self.now) number (answer_of result) };

    // The told world is a freest world.
    ghost free: { (s : Self) → Self.lawful s → FreestAt (Self.theory s) (Self.stands s) (told s) };

    // What is told of a number names the tree that the told world gives to the number's place.
    ghost named: { (s : Self) (n : ℕ) (a : Told) → Self.lawful s → (Self.telling s).answer (Self.stands s) n a → Names (Self.telling s) (told s) a ((told s).tree ((Self.telling s).place n)) };

    // Of a number one thing is told.
    ghost single: { (s : Self) (n : ℕ) (a b : Told) → Self.lawful s → (Self.telling s).answer (Self.stands s) n a → (Self.telling s).answer (Self.stands s) n b → a ≡ b };

    // The one refusal is 17.
    ghost refusal: { (s : Self) (n k : ℕ) → Self.lawful s → (Self.telling s).answer (Self.stands s) n (refused k) → k ≡ 17 };
}
