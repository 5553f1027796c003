// A sheet in the writing.

ghost use Rattle.std.specs.Prelude.{map};
ghost use Rattle.sheet.specs.Rows.{shape};
ghost use Rattle.sheet.specs.Indexes.{bucket, Indexed};

use crate::index::Index;
use crate::table::Table;

// A sheet that symbols and terms are added to.
#[derive(Drop)]
pub struct OpenSheet {
    pub(crate) table: Table,
    // The numbers of the terms, by their buckets.
    pub(crate) index: Index,
    ghost indexed: { ∥ Indexed (map bucket (map shape table.terms.items)) index.latest.items index.earlier.items ∥₁ },
}
