// The standing equations with the classes of terms that they force equal.

ghost use Rattle.std.specs.Prelude.{◌≡◌, vec_len};
ghost use Rattle.sheet.specs.Models.{rows_of};
ghost use Rattle.trees.specs.Layers.{Layered, Wide, Ready};

use crate::layer::Layer;
use crate::visits::Visits;
use bounded::Bounded;
use logic::{Equation, ROOM};
use sheet::OpenSheet;

// Standing equations, oldest first.
pub(crate) type Standing = Bounded<Equation, ROOM>;

#[derive(Drop)]
pub(crate) struct History {
    // The sheet, which is closed: nothing more is written into it.
    pub(crate) sheet: OpenSheet,
    pub(crate) standing: Standing,
    // For each number of them the classes of forced-equal terms, so that going back only forgets.
    pub(crate) layers: Vec<Layer>,
    // What the next layer is made with.
    pub(crate) visits: Visits,
    ghost full: { vec_len layers ≡ 257 },
    ghost wide: { ∥ Wide (rows_of sheet) layers.items 257 ∥₁ },
    ghost ready: { ∥ Ready (rows_of sheet) visits ∥₁ },
    ghost settled: { ∥ Layered (rows_of sheet) standing.vec.items layers.items ∥₁ },
}
