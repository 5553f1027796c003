// The buckets that terms are looked for in.

ghost use Rattle.std.specs.Prelude.{◌≡◌, ◌<◌, Some, IfSome};
ghost use Rattle.terms.specs.Sheets.{Row};
ghost use Rattle.sheet.specs.Rows.{shape};
ghost use Rattle.sheet.specs.Indexes.{bucket};

use crate::rows::Term;

// How many buckets there are.
pub(crate) const BUCKETS: usize = 2039;

// The bucket of a term. A name is in none, since nobody looks for one.
pub(crate) fn bucket_of(term: Term) -> Option<u16>
    ensures value { result ≡ bucket (shape term) }
    ensures within { IfSome result (λ b. b < 2039) }
{
    match term {
        Term::Name => None,
        Term::Over(compound) => Some(bucket_over(compound.symbol, compound.arguments())),
    }
}

// The bucket of a symbol over its arguments.
pub(crate) fn bucket_over(symbol: u8, arguments: &[u16]) -> u16
    ensures value { bucket (Row.over symbol arguments.now) ≡ Some result }
    ensures within { result < 2039 }
{
    let mixed = |hash: u32, argument: &u16| (hash * 1583 + *argument as u32) % 2039;
    arguments.iter().fold(symbol as u32, mixed) as u16
}
