// Sheets of terms in the writing: symbols by their arities, and terms by their numbers, each a name or a symbol over terms of
// lower numbers, which is written once. A `Table` has both and is a sheet at all times, an `Index` has the numbers of the
// terms by their buckets, and an `OpenSheet` is the two, with the terms found in the buckets that are theirs.

#![tactic(auto)]

ghost use Rattle.std.specs.Prelude.{◌≡◌, [], ◌∷◌, IfOk};
ghost use Rattle.sheet.specs.Refusals.{refusal_number};
ghost use Rattle.sheet.specs.Answers.{answer_of, AddsSymbol, AddsName, AddsTerm};
ghost use Rattle.sheet.specs.Models.{arities_of, rows_of, Read};

use index::Index;
pub use rows::{Compound, Term};
use std::alloc::{AllocError, Global};
use std::error::Error;
use std::fmt;
use table::{SYMBOLS, Table};
pub use writing::OpenSheet;

mod buckets;
mod finding;
mod index;
mod rows;
mod table;
#[cfg(test)]
mod tests;
mod writing;

// The highest arity of a symbol.
const WIDEST: u64 = 8;

// Why a call was refused. A refused call changes nothing.
#[derive(Clone, Copy, PartialEq, Eq, Debug)]
pub enum Refusal {
    // A symbol of an arity over 8.
    BigArity,
    // A symbol that the sheet lacks.
    UnknownSymbol,
    // Another number of arguments than the symbol's arity.
    WrongCount,
    // An argument that is not yet a term.
    NoTerm,
    // A 17th symbol.
    ManySymbols,
    // A 1,025th term.
    ManyTerms,
}

impl Refusal {
    // The number by which a refusal is known to users. Each layer has refusals of its own, and gives their numbers itself.
    pub fn number(self) -> u8
        ensures { result ≡ refusal_number self }
    {
        match self {
            Refusal::BigArity => 13,
            Refusal::UnknownSymbol => 14,
            Refusal::WrongCount => 15,
            Refusal::NoTerm => 16,
            Refusal::ManySymbols => 35,
            Refusal::ManyTerms => 36,
        }
    }
}

impl fmt::Display for Refusal {
    fn fmt<W: fmt::Write>(&self, f: &mut fmt::Formatter<W>) -> fmt::Result {
        write!(f, "refused {}", self.number())
    }
}

impl Error for Refusal {}

impl OpenSheet {
    // The symbols base, 0, and step, 1, and no term. This takes all the memory that the sheet ever needs.
    pub fn new(heap: Global) -> Result<OpenSheet, AllocError>
        ensures { IfOk result (λ s. (arities_of s ≡ 0 ∷ (1 ∷ [])) × (rows_of s ≡ [])) }
    {
        let table = Table::new(heap)?;
        let index = Index::new(heap)?;
        Ok(OpenSheet { table, index })
    }

    // A sheet with the same symbols and no term.
    pub fn blank(&self, heap: Global) -> Result<OpenSheet, AllocError>
        ensures { IfOk result (λ s. (arities_of s ≡ arities_of self.now) × (rows_of s ≡ [])) }
    {
        let table = self.table.blank(heap)?;
        let index = Index::new(heap)?;
        Ok(OpenSheet { table, index })
    }

    // Forgets the terms, and keeps the symbols.
    pub fn clear(&mut self)
        ensures arities { arities_of self.new ≡ arities_of self.old }
        ensures rows { rows_of self.new ≡ [] }
    {
        self.table.clear();
        self.index.clear();
    }

    // Adds a symbol of that arity, and gives its number. Refused over arity 8, and then where there are 16 symbols.
    pub fn symbol(&mut self, arity: u64) -> Result<u8, Refusal>
        ensures adds { AddsSymbol (arities_of self.old) arity (answer_of result) (arities_of self.new) }
        ensures rows { rows_of self.new ≡ rows_of self.old }
    {
        if arity > WIDEST {
            return Err(Refusal::BigArity);
        }
        let number = self.table.symbols();
        if number == SYMBOLS {
            return Err(Refusal::ManySymbols);
        }
        self.table.push_symbol(arity as u8);
        Ok(number as u8)
    }

    // Adds a name, and gives its number. Refused where there are 1,024 terms.
    pub fn name(&mut self) -> Result<u16, Refusal>
        ensures adds { AddsName (rows_of self.old) (answer_of result) (rows_of self.new) }
        ensures arities { arities_of self.new ≡ arities_of self.old }
    {
        self.add(Term::Name)
    }

    // Adds the symbol over these arguments, and gives its number; where it was written before, its old number. Refused where
    // the sheet lacks the symbol, then at another number of arguments than its arity, then at an argument that is not yet
    // a term, and then, unless it was written before, where there are 1,024 terms.
    pub fn term(&mut self, symbol: u8, arguments: &[u16]) -> Result<u16, Refusal>
        ensures adds { AddsTerm (arities_of self.old) (rows_of self.old) symbol arguments.now (answer_of result) (rows_of self.new) }
        ensures arities { arities_of self.new ≡ arities_of self.old }
    {
        self.table.admits(symbol, arguments)?;
        match self.find(symbol, arguments) {
            Some(number) => Ok(number),
            None => self.add_compound(symbol, arguments),
        }
    }

    // The arities of its symbols, by their numbers.
    pub fn arities(&self) -> &[u8]
        ensures { result.now ≡ arities_of self.now }
    {
        self.table.arities()
    }

    // Its terms, by their numbers: a term's arguments have lower numbers than the term.
    pub fn terms(&self) -> &[Term]
        ensures { Read self.now result.now }
    {
        self.table.terms()
    }
}
