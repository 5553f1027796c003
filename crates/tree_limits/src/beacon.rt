// A telling logic of an unusual make: it has no equation, and tells one term of any number it was given.

ghost use Rattle.std.specs.Prelude.{◌≡◌, []};
ghost use Rattle.tree_limits.specs.Beacons.{nothing, one_term, all_base};
ghost use Rattle.std.proofs.lemmas.Bool.{false≢true};
ghost use Rattle.std.proofs.Common.{rules};

use logic::{Assumed, Equation, Kind, Logic, Refusal, TellingLogic};

#[derive(Drop)]
pub struct Beacon {
    term: u32,
}

impl Beacon {
    // The logic that tells this term.
    pub fn new(term: u32) -> Beacon
        ensures { result.term ≡ term }
    {
        Beacon { term }
    }
}

impl Logic for Beacon {
    ghost theory = { λ _. nothing };

    ghost telling = { λ s. one_term s.term };

    ghost stands = { λ _. [] };

    ghost lawful = { λ _. Unit {0} };

    ghost few = { Prim.search rules };

    ghost freest = { λ s good. (all_base, record { own = tt; all = tt; free = λ e had h. absurd (false≢true had) }) };

    fn has(&self, _e: Equation) -> bool {
        false
    }

    fn forced(&self, _e: Equation) -> bool {
        false
    }

    fn standing(&self) -> usize {
        0
    }

    fn assume(&mut self, _e: Equation) -> Result<Assumed, Refusal> {
        Err(Refusal::Foreign)
    }

    fn back(&mut self, _n: usize) {}
}

impl TellingLogic for Beacon {
    ghost told = { λ _. all_base };

    ghost free = { Prim.search rules };

    ghost named = { Prim.search rules };

    ghost single = { Prim.search rules };

    ghost refusal = { Prim.search rules };

    fn tell(&self, number: u16) -> Result<(Kind, u32), Refusal> {
        if number > 0 {
            return Err(Refusal::Untold);
        }
        Ok((Kind::Term, self.term))
    }
}
