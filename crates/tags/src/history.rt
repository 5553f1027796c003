// The standing equations with the groups that they force.

ghost use Rattle.std.specs.Prelude.{◌≡◌, ◌+◌, ◌<◌, ◌≤◌, true, [], length, take, IfOk, vec_len, vec_capacity, Decides};
ghost use Rattle.bounded.specs.Bounds.{Pushes};
ghost use Rattle.groups.specs.Groups.{GroupNumber};
ghost use Rattle.groups.specs.Tables.{Table};
ghost use Rattle.tags.specs.Tags.{tags, Tag, ForcedEqual};
ghost use Rattle.tags.specs.Layers.{Layers, newest};

use crate::partition::Partition;
use bounded::{Bounded, Full};
use logic::{Equation, ROOM};
use std::alloc::{AllocError, Global};

#[derive(Drop)]
pub(crate) struct History {
    // The standing equations, oldest first.
    standing: Bounded<Equation, ROOM>,
    // For each number of them the partition into groups of forced-equal tags, so that going back only forgets.
    partitions: Vec<Partition>,
    ghost space: { 257 ≤ vec_capacity partitions },
    ghost one_more: { vec_len partitions ≡ vec_len standing.vec + 1 },
    ghost layers: { ∥ Layers standing.vec.items partitions.items ∥₁ },
}

impl History {
    // Nothing stands, and each tag is in a group of its own. This takes all the memory that a history ever needs.
    pub(crate) fn new(heap: Global) -> Result<History, AllocError>
        ensures { IfOk result (λ h. h.standing.vec.items ≡ []) }
    {
        let standing = Bounded::new(heap)?;
        let mut partitions = Vec::with_capacity(heap, ROOM + 1)?;
        partitions.push_reserved(Partition::apart());
        Ok(History {
            standing,
            partitions,
        })
    }

    // How many equations stand.
    pub(crate) fn len(&self) -> usize
        ensures count { result ≡ length self.now.standing.vec.items }
        ensures few { result ≤ 256 }
    {
        self.standing.len()
    }

    // The partition into groups of forced-equal tags.
    fn groups(&self) -> &Partition
        ensures table { Table 1024 (ForcedEqual self.now.standing.vec.items) result.now.lowest }
        ensures newest { result.now.lowest ≡ newest self.now.standing.vec.items self.now.partitions.items }
    {
        &self.partitions[self.standing.len()]
    }

    // Whether two tags are forced equal.
    pub(crate) fn joins(&self, a: u16, b: u16) -> bool
        requires { (a < 1024) × (b < 1024) }
        ensures { Decides result (ForcedEqual self.now.standing.vec.items a b) }
    {
        self.groups().joins(a, b)
    }

    // The number of a tag's group.
    pub(crate) fn group(&self, tag: u16) -> u32
        requires { tag < 1024 }
        ensures { GroupNumber Tag (ForcedEqual self.now.standing.vec.items) tag result }
    {
        self.groups().number(tag)
    }

    // Lets an equation of tags stand as the newest, unless there is no room for it.
    pub(crate) fn push(&mut self, e: Equation) -> Result<(), Full>
        requires { tags.has e ≡ true }
        ensures { Pushes 256 self.old.standing.vec.items e result self.new.standing.vec.items }
    {
        if self.standing.is_full() {
            return Err(Full);
        }
        let joined = self.groups().joined(e.left, e.right);
        self.standing.push(e)?;
        self.partitions.push_reserved(joined);
        Ok(())
    }

    // Keeps the oldest n equations, or all where fewer stand.
    pub(crate) fn truncate(&mut self, n: usize)
        ensures { self.new.standing.vec.items ≡ take n self.old.standing.vec.items }
    {
        self.standing.truncate(n);
        self.partitions.truncate(self.standing.len() + 1);
    }
}
