// The terms of a sheet, as they are read.

ghost use Rattle.std.specs.Prelude.{◌≡◌, ◌<◌, ◌≤◌, true, false, length, Decides, slice_index, ◌≢◌};
ghost use Rattle.terms.specs.Sheets.{Row, row, Compound as IsCompound};
ghost use Rattle.unify.specs.Merging.{alike as similar};
ghost use Rattle.sheet.specs.Models.{Read};
ghost use Rattle.trees.specs.Terms.{Orderly, rows, arguments_of, Reads, head_alone};

use sheet::{Compound, OpenSheet, Term};

// The terms of a sheet, by their numbers: each comes after its arguments.
#[derive(Clone, Copy)]
pub(crate) struct Terms<'a> {
    list: &'a [Term],
    ghost orderly: { Orderly list.now },
}

impl<'a> Terms<'a> {
    // Those of this sheet.
    pub(crate) fn of(sheet: &'a OpenSheet) -> Terms<'a>
        ensures { Read sheet.now result.list.now }
    {
        Terms {
            list: sheet.terms(),
        }
    }

    // How many there are.
    pub(crate) fn len(self) -> u16
        ensures count { result ≡ length self.entry.list.now }
        ensures few { result ≤ 1024 }
    {
        self.list.len() as u16
    }

    // The compound term of that number, if it is one.
    pub(crate) fn compound(self, a: u16) -> Option<Compound>
        requires { a < length self.list.now }
        ensures { Reads (row (rows self.entry.list.now) a) result }
    {
        match self.list[a as usize] {
            Term::Name => None,
            Term::Over(compound) => Some(compound),
        }
    }

    // Whether a term is compound.
    pub(crate) fn is_compound(self, a: u16) -> bool
        requires { a < length self.list.now }
        ensures { Decides result (IsCompound (row (rows self.entry.list.now) a)) }
    {
        self.compound(a).is_some()
    }

    // Whether the number is that of a name.
    pub(crate) fn is_name(self, number: u16) -> bool
        ensures yes { result ≡ true → (number < length self.entry.list.now) × (row (rows self.entry.list.now) number ≡ Row.name) }
        ensures no { result ≡ false → number < length self.entry.list.now → row (rows self.entry.list.now) number ≢ Row.name }
    {
        number < self.len() && !self.is_compound(number)
    }

    // Whether two compound terms have one symbol over as many arguments.
    pub(crate) fn alike(self, a: u16, b: u16) -> bool
        requires { (a < length self.list.now) × (b < length self.list.now) }
        ensures { result ≡ similar (row (rows self.entry.list.now) a) (row (rows self.entry.list.now) b) }
    {
        match (self.compound(a), self.compound(b)) {
            (Some(first), Some(second)) => first.symbol == second.symbol
                && first.arity == second.arity,
            _ => false,
        }
    }

    // How many arguments a term has.
    pub(crate) fn arity(self, a: u16) -> usize
        requires { a < length self.list.now }
        ensures count { result ≡ length (arguments_of self.entry.list.now a) }
        ensures small { result ≤ 8 }
    {
        self.compound(a)
            .map_or(0, |compound| usize::from(compound.arity))
    }

    // One of a term's arguments.
    pub(crate) fn argument(self, a: u16, place: usize) -> u16
        requires term { a < length self.list.now }
        requires place { place < length (arguments_of self.list.now a) }
        ensures { result ≡ slice_index (arguments_of self.entry.list.now a) place }
    {
        self.compound(a)
            .map_or(0, |compound| compound.arguments[place])
    }

    // The head of a term that is alone in its class: itself, or the count of terms for a name.
    pub(crate) fn head(self, a: u16) -> u16
        requires { a < length self.list.now }
        ensures { result ≡ head_alone a (length self.entry.list.now) (row (rows self.entry.list.now) a) }
    {
        if self.is_compound(a) { a } else { self.len() }
    }
}
