// The logic of 1,024 tags: the equation (a, b) says that the tags a and b agree. `History` has the standing equations with
// the groups of forced-equal tags, and `Partition` is one division of the tags into groups.

#![tactic(auto)]

ghost use Rattle.std.specs.Prelude.{◌≡◌, [], IfOk};
ghost use Rattle.tags.specs.Tags.{tags, tag_telling};
ghost use Rattle.std.proofs.Common.{rules};
ghost use Rattle.tags.specs.Tells.{tag_single};
ghost use Rattle.tags.specs.Histories.{told_in, history_freest, history_named};

use history::History;
use logic::{Assumed, Equation, Kind, Logic, Refusal, TellingLogic};
use partition::TAGS;
use std::alloc::{AllocError, Global};

mod history;
mod partition;
#[cfg(test)]
mod tests;

#[derive(Drop)]
pub struct Tags {
    history: History,
}

impl Tags {
    // Tags of which no two are forced equal.
    pub fn new(heap: Global) -> Result<Tags, AllocError>
        ensures { IfOk result (λ s. s.history.standing.vec.items ≡ []) }
    {
        let history = History::new(heap)?;
        Ok(Tags { history })
    }
}

impl Logic for Tags {
    ghost theory = { λ _. tags };

    ghost telling = { λ _. tag_telling };

    ghost stands = { λ s. s.history.standing.vec.items };

    ghost lawful = { λ _. Unit {0} };

    ghost few = { Prim.search rules };

    ghost freest = { λ s good. (told_in s.history, history_freest s.history) };

    fn has(&self, e: Equation) -> bool {
        e.left < TAGS && e.right < TAGS
    }

    fn forced(&self, e: Equation) -> bool {
        self.has(e) && self.history.joins(e.left, e.right)
    }

    fn standing(&self) -> usize {
        self.history.len()
    }

    #[tactic(auto, using(crate::specs::Tells::no_clash))]
    fn assume(&mut self, e: Equation) -> Result<Assumed, Refusal> {
        if !self.has(e) {
            return Err(Refusal::Foreign);
        }
        self.history.push(e)?;
        Ok(Assumed::Taken)
    }

    fn back(&mut self, n: usize) {
        self.history.truncate(n);
    }
}

impl TellingLogic for Tags {
    ghost told = { λ s. told_in s.history };

    ghost free = { λ s good. history_freest s.history };

    ghost named = { λ s n a good. history_named s.history n a };

    ghost single = { λ s n a b good. tag_single s.history.standing.vec.items n a b };

    ghost refusal = { Prim.search rules };

    fn tell(&self, number: u16) -> Result<(Kind, u32), Refusal> {
        if number >= TAGS {
            return Err(Refusal::Untold);
        }
        Ok((Kind::Tower, self.history.group(number)))
    }
}
