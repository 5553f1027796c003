// What is asked of two logics, each by its side.

ghost use Rattle.std.specs.Prelude.{◌≡◌, Decides};
ghost use Rattle.logic.specs.Theories.{Forced};
ghost use Rattle.logic.specs.Tellings.{answer_of};
ghost use Rattle.logic.specs.Answers.{outcome_of};
ghost use Rattle.pair.specs.Members.{by_side, Asks, Backs};

use crate::both::Both;
use logic::{Assumed, Equation, Kind, Logic, Refusal, TellingLogic};
use sides::Side;

// The two are of types of their own, so each call names the one that it asks.
impl<A: Logic, B: Logic> Both<A, B> {
    // Whether that side has the equation.
    pub(crate) fn has(&self, side: Side, e: Equation) -> bool
        ensures { by_side A.Logic.lawful B.Logic.lawful self.now side → result ≡ (by_side A.Logic.theory B.Logic.theory self.now side).has e }
    {
        match side {
            Side::First => self.first.has(e),
            Side::Second => self.second.has(e),
        }
    }

    // Whether the equation is forced on that side.
    pub(crate) fn forced(&self, side: Side, e: Equation) -> bool
        ensures { by_side A.Logic.lawful B.Logic.lawful self.now side → Decides result (Forced (by_side A.Logic.theory B.Logic.theory self.now side) (by_side A.Logic.stands B.Logic.stands self.now side) e) }
    {
        match side {
            Side::First => self.first.forced(e),
            Side::Second => self.second.forced(e),
        }
    }

    // Lets the equation stand on that side, as that side's logic does.
    pub(crate) fn assume(&mut self, side: Side, e: Equation) -> Result<Assumed, Refusal>
        ensures { Asks A.Logic B.Logic self.old side e (outcome_of result) self.new }
    {
        match side {
            Side::First => self.first.assume(e),
            Side::Second => self.second.assume(e),
        }
    }

    // Keeps the oldest equations on each side, so many on the first and so many on the second.
    pub(crate) fn back(&mut self, firsts: usize, seconds: usize)
        ensures { Backs A.Logic B.Logic self.old firsts seconds self.new }
    {
        self.first.back(firsts);
        self.second.back(seconds);
    }
}

impl<A: TellingLogic, B: TellingLogic> Both<A, B> {
    // What that side tells of the number.
    pub(crate) fn tell(&self, side: Side, number: u16) -> Result<(Kind, u32), Refusal>
        ensures { by_side A.Logic.lawful B.Logic.lawful self.now side → (by_side A.Logic.telling B.Logic.telling self.now side).answer (by_side A.Logic.stands B.Logic.stands self.now side) number (answer_of result) }
    {
        match side {
            Side::First => self.first.tell(number),
            Side::Second => self.second.tell(number),
        }
    }
}
