// The logic of trees on a sheet of terms: the equation (a, b) says that the terms a and b have one value. `History` has the
// standing equations, and for each number of them a `Layer`: the classes of forced-equal terms. `merging`, `visiting` and
// `settling` bring the two sides of one equation more together, and `telling` reads what is told of a name.

#![tactic(auto)]

ghost use Rattle.std.specs.Prelude.{◌≡◌, [], IfOk};
ghost use Rattle.sheet.specs.Models.{arities_of, rows_of, Read};
ghost use Rattle.trees.specs.Models.{arities_in, rows_in, stands_in, theory_in, telling_in, told_in, table_in, heads_in, settled_in};
ghost use Rattle.classes.proofs.Decides.{told_freest};
ghost use Rattle.std.proofs.Common.{rules};
ghost use Rattle.classes.proofs.Tells.{told_named, told_single};

use history::History;
use logic::{Assumed, Equation, Kind, Logic, ROOM, Refusal, TellingLogic};
use sheet::{OpenSheet, Term};
use std::alloc::{AllocError, Global};

mod clash;
mod history;
mod layer;
mod merging;
mod reading;
mod settling;
mod standing;
mod telling;
mod term_list;
#[cfg(test)]
mod tests;
mod visiting;
mod visits;

#[derive(Drop)]
pub struct Trees {
    history: History,
}

impl Trees {
    // The logic on the terms of the sheet, which is closed by this: nothing more can be written into it.
    pub fn new(heap: Global, sheet: OpenSheet) -> Result<Trees, AllocError>
        ensures { IfOk result (λ s. (arities_in s.history ≡ arities_of sheet) × (rows_in s.history ≡ rows_of sheet) × (stands_in s.history ≡ [])) }
    {
        let history = History::new(heap, sheet)?;
        Ok(Trees { history })
    }

    // The arities of the sheet's symbols, by their numbers.
    pub fn arities(&self) -> &[u8]
        ensures { result.now ≡ arities_in self.now.history }
    {
        self.history.arities()
    }

    // The terms of the sheet, by their numbers.
    pub fn terms(&self) -> &[Term]
        ensures { Read self.now.history.sheet result.now }
    {
        self.history.terms()
    }
}

impl Logic for Trees {
    ghost theory = { λ s. theory_in s.history };

    ghost telling = { λ s. telling_in s.history };

    ghost stands = { λ s. stands_in s.history };

    ghost lawful = { λ _. Unit {0} };

    ghost few = { Prim.search rules };

    ghost freest = { λ s good.
        let h = s.history in (
          told_in h,
          told_freest (arities_in h) (rows_in h) (stands_in h) (table_in h) (heads_in h) h.sheet.table.sheet (settled_in h),
        ) };

    fn has(&self, e: Equation) -> bool {
        e.left < self.history.count() && e.right < self.history.count()
    }

    fn forced(&self, e: Equation) -> bool {
        self.has(e) && self.history.joins(e.left, e.right)
    }

    fn standing(&self) -> usize {
        self.history.len()
    }

    fn assume(&mut self, e: Equation) -> Result<Assumed, Refusal> {
        if !self.has(e) {
            return Err(Refusal::Foreign);
        }
        if self.standing() == ROOM {
            return Err(Refusal::Full);
        }
        if self.history.assume(e).is_err() {
            return Ok(Assumed::Clash);
        }
        Ok(Assumed::Taken)
    }

    fn back(&mut self, n: usize) {
        self.history.truncate(n);
    }
}

impl TellingLogic for Trees {
    ghost told = { λ s. told_in s.history };

    ghost free = { λ s good.
        let h = s.history in
        told_freest (arities_in h) (rows_in h) (stands_in h) (table_in h) (heads_in h) h.sheet.table.sheet (settled_in h) };

    ghost named = { λ s n a good.
        let h = s.history in
        told_named (arities_in h) (rows_in h) (stands_in h) (table_in h) (heads_in h) h.sheet.table.sheet (settled_in h) n a };

    ghost single = { λ s n a b good. let h = s.history in told_single (arities_in h) (rows_in h) (stands_in h) n a b };

    ghost refusal = { Prim.search rules };

    fn tell(&self, number: u16) -> Result<(Kind, u32), Refusal> {
        if !self.history.is_name(number) {
            return Err(Refusal::Untold);
        }
        Ok(self.history.told(number))
    }
}
