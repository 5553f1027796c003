// Partitions of the tags into groups.

ghost use Rattle.std.specs.Prelude.{◌≡◌, ℕ, ◌<◌, ◌≤◌, length, Decides, slice_index};
ghost use Rattle.groups.specs.Tables.{group_of, leads, tally};
ghost use Rattle.tags.specs.Partitions.{Lowests, joining};

use std::array;

// How many tags there are.
pub(crate) const TAGS: u16 = 1024;

// A partition of the tags into groups, by the lowest member of each tag's group.
#[derive(Clone, Copy)]
pub(crate) struct Partition {
    lowest: [u16; 1024],
    ghost long: { length lowest ≡ 1024 },
    ghost lowests: { Lowests lowest },
}

impl Partition {
    // Each tag in a group of its own.
    pub(crate) fn apart() -> Partition
        ensures { (i : ℕ) → i < 1024 → slice_index result.lowest i ≡ i }
    {
        Partition {
            lowest: array::from_fn(|tag| tag as u16),
        }
    }

    // The partition with the groups of two tags made one.
    pub(crate) fn joined(&self, a: u16, b: u16) -> Partition
        requires { (a < 1024) × (b < 1024) }
        ensures { result.lowest ≡ joining self.now.lowest a b }
    {
        let low = self.lowest[a as usize].min(self.lowest[b as usize]);
        let high = self.lowest[a as usize].max(self.lowest[b as usize]);
        let mut lowest = self.lowest;
        for x in lowest.iter_mut() {
            if *x == high {
                *x = low;
            }
        }
        Partition { lowest }
    }

    // Whether two tags are in one group.
    pub(crate) fn joins(&self, a: u16, b: u16) -> bool
        requires { (a < 1024) × (b < 1024) }
        ensures { Decides result (slice_index self.now.lowest a ≡ slice_index self.now.lowest b) }
    {
        self.lowest[a as usize] == self.lowest[b as usize]
    }

    // The number of a tag's group, counted from 1 by lowest member.
    pub(crate) fn number(&self, tag: u16) -> u32
        requires { tag < 1024 }
        ensures { result ≡ group_of self.now.lowest tag }
    {
        1 + self.leaders_below(self.lowest[tag as usize])
    }

    // How many tags below this one are the lowest members of their groups.
    fn leaders_below(&self, end: u16) -> u32
        requires { end < 1024 }
        ensures count { result ≡ tally (leads self.now.lowest) end }
        ensures within { result ≤ end }
    {
        let more = |count: u32, tag: u16| {
            count.wrapping_add(u32::from(self.lowest[tag as usize] == tag))
        };
        (0..end).fold(0, more)
    }
}
