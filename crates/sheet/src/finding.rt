// Finding the terms of a sheet, and adding new ones.

ghost use Rattle.std.specs.Prelude.{◌≡◌, length};
ghost use Rattle.terms.specs.Sheets.{Row, Writable};
ghost use Rattle.sheet.specs.Rows.{shape, Absent, Fresh, Finds};
ghost use Rattle.sheet.specs.Answers.{answer_of, AddsRow};
ghost use Rattle.sheet.specs.Models.{arities_of, rows_of};

use crate::Refusal;
use crate::buckets::{bucket_of, bucket_over};
use crate::rows::{Compound, Term};
use crate::table::TERMS;
use crate::writing::OpenSheet;

impl OpenSheet {
    // The number of the symbol over these arguments, if that was written before.
    pub(crate) fn find(&self, symbol: u8, arguments: &[u16]) -> Option<u16>
        ensures { Finds (rows_of self.now) (Row.over symbol arguments.now) result }
    {
        let mut next = self.index.latest(bucket_over(symbol, arguments));
        while let Some(number) = next {
            if self.table.is(number, symbol, arguments) {
                return Some(number);
            }
            next = self.index.earlier(number);
        }
        None
    }

    // Adds the symbol over these arguments, which can be written and was not yet, and gives its number.
    pub(crate) fn add_compound(&mut self, symbol: u8, arguments: &[u16]) -> Result<u16, Refusal>
        requires writable { Writable (arities_of self.old) (length (rows_of self.old)) symbol arguments.now }
        requires absent { Absent (rows_of self.old) (Row.over symbol arguments.now) }
        ensures adds { AddsRow (rows_of self.old) (Row.over symbol arguments.now) (answer_of result) (rows_of self.new) }
        ensures arities { arities_of self.new ≡ arities_of self.old }
    {
        self.add(Term::Over(Compound::new(symbol, arguments)))
    }

    // Adds a term that the sheet can take, and gives its number.
    pub(crate) fn add(&mut self, term: Term) -> Result<u16, Refusal>
        requires { Fresh (arities_of self.old) (rows_of self.old) (shape term) }
        ensures adds { AddsRow (rows_of self.old) (shape term) (answer_of result) (rows_of self.new) }
        ensures arities { arities_of self.new ≡ arities_of self.old }
    {
        let number = self.table.len();
        if number == TERMS {
            return Err(Refusal::ManyTerms);
        }
        self.table.push(term);
        self.index.push(bucket_of(term));
        Ok(number as u16)
    }
}
