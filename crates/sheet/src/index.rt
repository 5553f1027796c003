// An index of numbers by their buckets.

ghost use Rattle.std.specs.Prelude.{◌≡◌, ℕ, ◌<◌, ◌≤◌, List, [], ◌∷◌, ◌++◌, length, IfOk, vec_len, vec_capacity, Option, IfSome};
ghost use Rattle.sheet.specs.Indexes.{In, Latest, Indexed};

use crate::buckets::BUCKETS;
use crate::table::TERMS;
use std::alloc::{AllocError, Global};

// Numbers from 0 on, each in a bucket or in none, by which they are found again: the latest first. A map of the library
// would take memory as it grows, and here no call after `new` may.
#[derive(Drop)]
pub(crate) struct Index {
    // For each bucket the latest number in it.
    latest: Vec<Option<u16>>,
    // For each number the latest before it in its bucket.
    earlier: Vec<Option<u16>>,
    ghost wide: { vec_len latest ≡ 2039 },
    ghost room: { 1024 ≤ vec_capacity earlier },
}

impl Index {
    // Of no number. This takes all the memory that an index ever needs.
    pub(crate) fn new(heap: Global) -> Result<Index, AllocError>
        ensures { IfOk result (λ i. Indexed [] i.latest.items i.earlier.items) }
    {
        let latest = vec![in heap; None; BUCKETS]?;
        let earlier = Vec::with_capacity(heap, TERMS)?;
        Ok(Index { latest, earlier })
    }

    // The latest number in a bucket.
    pub(crate) fn latest(&self, bucket: u16) -> Option<u16>
        requires { bucket < 2039 }
        ensures { (bs : List (Option ℕ)) → Indexed bs self.now.latest.items self.now.earlier.items → Latest (In bs bucket) (length bs) result }
    {
        self.latest[bucket as usize]
    }

    // The latest number before this one in its bucket.
    pub(crate) fn earlier(&self, number: u16) -> Option<u16>
        requires { number < length self.now.earlier.items }
        ensures { (bs : List (Option ℕ)) (b : ℕ) → Indexed bs self.now.latest.items self.now.earlier.items → In bs b number → Latest (In bs b) number result }
    {
        self.earlier[number as usize]
    }

    // Puts the next number into a bucket, or into none.
    pub(crate) fn push(&mut self, bucket: Option<u16>)
        requires within { IfSome bucket (λ b. b < 2039) }
        requires few { length self.old.earlier.items < 1024 }
        ensures { (bs : List (Option ℕ)) → Indexed bs self.old.latest.items self.old.earlier.items → Indexed (bs ++ (bucket ∷ [])) self.new.latest.items self.new.earlier.items }
    {
        match bucket {
            Some(bucket) => {
                let number = self.earlier.len() as u16;
                self.earlier.push_reserved(self.latest[bucket as usize]);
                self.latest[bucket as usize] = Some(number);
            }
            None => self.earlier.push_reserved(None),
        }
    }

    // Forgets the numbers.
    pub(crate) fn clear(&mut self)
        ensures { Indexed [] self.new.latest.items self.new.earlier.items }
    {
        self.latest.fill(None);
        self.earlier.clear();
    }
}
