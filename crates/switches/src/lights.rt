// The standing equations of switches, with the place at which each switch stands first.

ghost use Rattle.std.specs.Prelude.{◌≡◌, ◌<◌, ◌≤◌, true, [], length, take, IfOk, Decides};
ghost use Rattle.bounded.specs.Bounds.{Pushes};
ghost use Rattle.logic.specs.Theories.{Forced};
ghost use Rattle.switches.specs.Switches.{switches, switched};
ghost use Rattle.switches.specs.Places.{Firsts};

use bounded::{Bounded, Full};
use logic::{Equation, ROOM};
use std::alloc::{AllocError, Global};

// How many switches there are.
pub(crate) const SWITCHES: u16 = 256;

#[derive(Drop)]
pub(crate) struct Lights {
    // The standing equations, oldest first.
    standing: Bounded<Equation, ROOM>,
    // Where a switch stands first, if it stands. An entry counts only where it points at a standing equation of its own
    // switch, so going back need not touch it.
    first: [u8; 256],
    ghost firsts: { Firsts standing.vec.items first },
}

impl Lights {
    // Nothing stands.
    pub(crate) fn new(heap: Global) -> Result<Lights, AllocError>
        ensures { IfOk result (λ l. l.standing.vec.items ≡ []) }
    {
        let standing = Bounded::new(heap)?;
        Ok(Lights {
            standing,
            first: [0; 256],
        })
    }

    // How many equations stand.
    pub(crate) fn len(&self) -> usize
        ensures count { result ≡ length self.now.standing.vec.items }
        ensures few { result ≤ 256 }
    {
        self.standing.len()
    }

    // Whether the switch is forced on.
    pub(crate) fn is_on(&self, switch: u16) -> bool
        requires { switch < 256 }
        ensures { Decides result (Forced switches self.now.standing.vec.items (switched switch)) }
    {
        let place = self.first[switch as usize] as usize;
        let standing = self.standing.as_slice();
        place < standing.len() && standing[place].left == switch
    }

    // Lets the equation of a switch stand as the newest, unless there is no room for it.
    pub(crate) fn push(&mut self, e: Equation) -> Result<(), Full>
        requires { switches.has e ≡ true }
        ensures { Pushes 256 self.old.standing.vec.items e result self.new.standing.vec.items }
    {
        let place = self.standing.len();
        let again = self.is_on(e.left);
        self.standing.push(e)?;
        if !again {
            self.first[e.left as usize] = place as u8;
        }
        Ok(())
    }

    // Keeps the oldest n equations, or all where fewer stand.
    pub(crate) fn truncate(&mut self, n: usize)
        ensures { self.new.standing.vec.items ≡ take n self.old.standing.vec.items }
    {
        self.standing.truncate(n);
    }
}
