// The logic of 256 switches: the equation (s, 0) says that switch s is on. `Lights` has the standing equations, with a table
// that finds a switch among them at once.

#![tactic(auto)]

ghost use Rattle.std.specs.Prelude.{◌≡◌, [], IfOk};
ghost use Rattle.switches.specs.Switches.{switches, switch_telling, told_by};
ghost use Rattle.switches.specs.Forcing.{told_freest};
ghost use Rattle.std.proofs.Common.{rules};
ghost use Rattle.switches.specs.Tells.{switch_named, switch_single};

use lights::{Lights, SWITCHES};
use logic::{Assumed, Equation, Kind, Logic, Refusal, TellingLogic};
use std::alloc::{AllocError, Global};

mod lights;
#[cfg(test)]
mod tests;

#[derive(Drop)]
pub struct Switches {
    lights: Lights,
}

impl Switches {
    // Switches of which none is on.
    pub fn new(heap: Global) -> Result<Switches, AllocError>
        ensures { IfOk result (λ s. s.lights.standing.vec.items ≡ []) }
    {
        let lights = Lights::new(heap)?;
        Ok(Switches { lights })
    }
}

impl Logic for Switches {
    ghost theory = { λ _. switches };

    ghost telling = { λ _. switch_telling };

    ghost stands = { λ s. s.lights.standing.vec.items };

    ghost lawful = { λ _. Unit {0} };

    ghost few = { Prim.search rules };

    ghost freest = { λ s good. (told_by s.lights.standing.vec.items, told_freest s.lights.standing.vec.items) };

    fn has(&self, e: Equation) -> bool {
        e.left < SWITCHES && e.right == 0
    }

    fn forced(&self, e: Equation) -> bool {
        self.has(e) && self.lights.is_on(e.left)
    }

    fn standing(&self) -> usize {
        self.lights.len()
    }

    #[tactic(auto, using(crate::specs::Forcing::no_clash))]
    fn assume(&mut self, e: Equation) -> Result<Assumed, Refusal> {
        if !self.has(e) {
            return Err(Refusal::Foreign);
        }
        self.lights.push(e)?;
        Ok(Assumed::Taken)
    }

    fn back(&mut self, n: usize) {
        self.lights.truncate(n);
    }
}

impl TellingLogic for Switches {
    ghost told = { λ s. told_by s.lights.standing.vec.items };

    ghost free = { λ s good. told_freest s.lights.standing.vec.items };

    ghost named = { λ s n a good. switch_named s.lights.standing.vec.items n a };

    ghost single = { λ s n a b good. switch_single s.lights.standing.vec.items n a b };

    ghost refusal = { Prim.search rules };

    fn tell(&self, number: u16) -> Result<(Kind, u32), Refusal> {
        if number >= SWITCHES {
            return Err(Refusal::Untold);
        }
        if self.lights.is_on(number) {
            Ok((Kind::Tower, 0))
        } else {
            Ok((Kind::Tower, 1))
        }
    }
}
