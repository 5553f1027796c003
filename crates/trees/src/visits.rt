// What bringing two terms together works in. It means nothing from call to call.

ghost use Rattle.std.specs.Prelude.{◌≡◌, IfOk, vec_len};

use sheet::OpenSheet;
use std::alloc::{AllocError, Global};
use unify::Mark;

// Visits of the classes of a sheet's terms, and the numbers that they get.
#[derive(Drop)]
pub(crate) struct Visits {
    // How far the visit of each class has come.
    pub(crate) marks: Vec<Mark>,
    // The lowest term of each number; the count of terms stands for none, as among the heads of a layer.
    pub(crate) lowest: Vec<u16>,
    // The classes in the order of their visits, as the terms of a sheet over the same symbols.
    pub(crate) order: OpenSheet,
    ghost long: { vec_len lowest ≡ vec_len marks },
}

impl Visits {
    ghost use Rattle.sheet.specs.Models.{rows_of};
    ghost use Rattle.trees.specs.Layers.{Ready};

    // For the terms of a sheet. This takes all the memory that they ever need.
    pub(crate) fn new(heap: Global, sheet: &OpenSheet) -> Result<Visits, AllocError>
        ensures { IfOk result (λ v. Ready (rows_of sheet.now) v) }
    {
        let count = sheet.terms().len();
        let marks = vec![in heap; Mark::Unseen; count]?;
        let lowest = vec![in heap; 0u16; count]?;
        let order = sheet.blank(heap)?;
        Ok(Visits {
            marks,
            lowest,
            order,
        })
    }
}
