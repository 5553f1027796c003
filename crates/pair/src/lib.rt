// Two logics of any make side by side, as one logic: an equation between even numbers is one of the first, with both
// numbers halved, and one between odd numbers is one of the second. `Both` has the two logics, and `numbers` says which side
// is whose.

#![tactic(auto)]

ghost use Rattle.std.specs.Prelude.{◌≡◌, ◌<◌, [], ◌∷◌, ◌++◌, length, IfOk};
ghost use Rattle.sides.specs.Sides.{joined};
ghost use Rattle.sides.specs.Pairs.{paired};
ghost use Rattle.sides.specs.Tellings.{paired_telling};
ghost use Rattle.pair.specs.Members.{by_side, Lawful, Begins};
ghost use Rattle.sides.proofs.Calls.{each_side, pair_freest, told_free};
ghost use Rattle.std.proofs.Common.{rules};
ghost use Rattle.sides.specs.declared.Side.TheVariants.{First, Second};
ghost use Rattle.sides.proofs.Tellings.{pair_named, pair_single, pair_refusal};

use both::Both;
use bounded::Bounded;
use logic::{Assumed, Equation, Kind, Logic, ROOM, Refusal, TellingLogic};
use numbers::{count, part, pass_on, side_of};
use sides::Side;
use std::alloc::{AllocError, Global};

mod asks;
mod both;
mod numbers;

#[derive(Drop)]
pub struct Pair<A: Logic, B: Logic> {
    both: Both<A, B>,
    // The equations that stand in the two, in the order in which they were taken.
    standing: Bounded<Equation, ROOM>,
}

impl<A: Logic + Drop, B: Logic + Drop> Pair<A, B> {
    // The two logics side by side, with nothing standing.
    pub fn new(heap: Global, first: A, second: B) -> Result<Pair<A, B>, AllocError>
        ensures { A.Logic.lawful first → B.Logic.lawful second → IfOk result (λ s. Begins A.Logic B.Logic first second s.both s.standing.vec.items) }
    {
        let standing = Bounded::new(heap)?;
        let mut both = Both { first, second };
        both.back(0, 0);
        Ok(Pair { both, standing })
    }
}

// Notes an equation that a side has taken, as the newest.
fn note<const N: usize>(standing: &mut Bounded<Equation, N>, e: Equation)
    requires { length standing.old.vec.items < N }
    ensures { standing.new.vec.items ≡ standing.old.vec.items ++ (e ∷ []) }
{
    standing.push(e).unwrap();
}

impl<A: Logic, B: Logic> Logic for Pair<A, B> {
    ghost theory = { λ s. paired (by_side A.Logic.theory B.Logic.theory s.both) };

    ghost telling = { λ s. paired_telling (by_side A.Logic.telling B.Logic.telling s.both) };

    ghost stands = { λ s. s.standing.vec.items };

    ghost lawful = { λ s. Lawful A.Logic B.Logic s.both s.standing.vec.items };

    ghost few = { Prim.search rules };

    ghost freest = { λ s.
        let a = A.Logic in
        let b = B.Logic in
        pair_freest (by_side a.theory b.theory s.both) (by_side a.lawful b.lawful s.both) (by_side a.stands b.stands s.both) s.standing.vec.items
        (each_side _ (A.Logic.freest s.both.first) (B.Logic.freest s.both.second)) };

    fn has(&self, e: Equation) -> bool {
        match part(e) {
            Some((side, halved)) => self.both.has(side, halved),
            None => false,
        }
    }

    fn forced(&self, e: Equation) -> bool {
        match part(e) {
            Some((side, halved)) => self.both.forced(side, halved),
            None => false,
        }
    }

    fn standing(&self) -> usize {
        self.standing.len()
    }

    fn assume(&mut self, e: Equation) -> Result<Assumed, Refusal> {
        let Some((side, halved)) = part(e) else {
            return Err(Refusal::Foreign);
        };
        if !self.both.has(side, halved) {
            return Err(Refusal::Foreign);
        }
        if self.standing.is_full() {
            return Err(Refusal::Full);
        }
        let assumed = self.both.assume(side, halved)?;
        if let Assumed::Taken = assumed {
            note(&mut self.standing, e);
        }
        Ok(assumed)
    }

    fn back(&mut self, n: usize) {
        self.standing.truncate(n);
        let left = self.standing.as_slice();
        self.both
            .back(count(Side::First, left), count(Side::Second, left));
    }
}

impl<A: TellingLogic, B: TellingLogic> TellingLogic for Pair<A, B> {
    ghost told = { λ s. joined (by_side A.TellingLogic.told B.TellingLogic.told s.both) };

    ghost free = { λ s l.
        let a = A.Logic in
        let b = B.Logic in
        told_free (by_side a.theory b.theory s.both) (by_side a.stands b.stands s.both) s.standing.vec.items l.shares
        (by_side A.TellingLogic.told B.TellingLogic.told s.both)
        (each_side _ (A.TellingLogic.free s.both.first (l.each First)) (B.TellingLogic.free s.both.second (l.each Second))) };

    ghost named = { λ s n answer l.
        let a = A.Logic in
        let b = B.Logic in
        pair_named (by_side a.telling b.telling s.both) (by_side a.stands b.stands s.both) s.standing.vec.items l.shares
        (by_side A.TellingLogic.told B.TellingLogic.told s.both)
        (each_side _ (λ m x. A.TellingLogic.named s.both.first m x (l.each First)) (λ m x. B.TellingLogic.named s.both.second m x (l.each Second))) n answer };

    ghost single = { λ s n answer other l.
        let a = A.Logic in
        let b = B.Logic in
        pair_single (by_side a.telling b.telling s.both) (by_side a.stands b.stands s.both) s.standing.vec.items l.shares
        (each_side _ (λ m x y. A.TellingLogic.single s.both.first m x y (l.each First)) (λ m x y. B.TellingLogic.single s.both.second m x y (l.each Second))) n answer other };

    ghost refusal = { λ s n k l.
        let a = A.Logic in
        let b = B.Logic in
        pair_refusal (by_side a.telling b.telling s.both) (by_side a.stands b.stands s.both) s.standing.vec.items l.shares
        (each_side _ (λ m j. A.TellingLogic.refusal s.both.first m j (l.each First)) (λ m j. B.TellingLogic.refusal s.both.second m j (l.each Second))) n k };

    fn tell(&self, number: u16) -> Result<(Kind, u32), Refusal> {
        let side = side_of(number);
        pass_on(side, self.both.tell(side, number / 2))
    }
}
