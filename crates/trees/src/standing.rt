// Letting equations stand, and taking them back.

ghost use Rattle.std.specs.Prelude.{◌≡◌, ◌<◌, ◌≤◌, true, OnOk, OnErr, [], ◌∷◌, ◌++◌, length, take, IfOk};
ghost use Rattle.logic.specs.Theories.{Clash as Clashes};
ghost use Rattle.sheet.specs.Models.{rows_of};
ghost use Rattle.trees.specs.Terms.{rows};
ghost use Rattle.trees.specs.Layers.{Ready};
ghost use Rattle.trees.specs.Models.{Founded, stands_in, theory_in, Prepared};

use crate::clash::Clash;
use crate::history::{History, Standing};
use crate::layer::Layer;
use crate::settling::next_layer;
use crate::term_list::Terms;
use crate::visits::Visits;
use bounded::Bounded;
use logic::{Equation, ROOM};
use sheet::OpenSheet;
use std::alloc::{AllocError, Global};

impl History {
    // Nothing stands, and each term is in a class of its own. This takes all the memory that a history ever needs.
    pub(crate) fn new(heap: Global, sheet: OpenSheet) -> Result<History, AllocError>
        ensures { IfOk result (λ h. (h.sheet ≡ sheet) × (stands_in h ≡ [])) }
    {
        let standing = Bounded::new(heap)?;
        let layers = layers(heap, Terms::of(&sheet))?;
        let visits = Visits::new(heap, &sheet)?;
        Ok(History {
            sheet,
            standing,
            layers,
            visits,
        })
    }

    // Lets an equation stand as the newest, unless it clashes.
    pub(crate) fn assume(&mut self, e: Equation) -> Result<(), Clash>
        requires had { (theory_in self.old).has e ≡ true }
        requires few { length (stands_in self.old) < 256 }
        ensures sheet { self.new.sheet ≡ self.old.sheet }
        ensures yes { OnOk result ((Clashes (theory_in self.old) (stands_in self.old) e → ⊥) × (stands_in self.new ≡ stands_in self.old ++ (e ∷ []))) }
        ensures no { OnErr result (Clashes (theory_in self.old) (stands_in self.old) e × (stands_in self.new ≡ stands_in self.old)) }
    {
        self.prepare(e)?;
        self.push(e);
        Ok(())
    }

    // Makes the layer for one equation more.
    fn prepare(&mut self, e: Equation) -> Result<(), Clash>
        requires had { (theory_in self.old).has e ≡ true }
        requires few { length (stands_in self.old) < 256 }
        ensures sheet { self.new.sheet ≡ self.old.sheet }
        ensures standing { stands_in self.new ≡ stands_in self.old }
        ensures fits { OnOk result (Clashes (theory_in self.old) (stands_in self.old) e → ⊥) }
        ensures prepared { OnOk result (Prepared self.new e) }
        ensures clash { OnErr result (Clashes (theory_in self.old) (stands_in self.old) e) }
    {
        next_layer(
            &mut self.layers,
            &mut self.visits,
            Terms::of(&self.sheet),
            self.standing.len(),
            e,
        )
    }

    // Lets the equation stand that the next layer is made for.
    fn push(&mut self, e: Equation)
        requires few { length (stands_in self.old) < 256 }
        requires prepared { Prepared self.old e }
        ensures sheet { self.new.sheet ≡ self.old.sheet }
        ensures newest { stands_in self.new ≡ stands_in self.old ++ (e ∷ []) }
    {
        note(&mut self.standing, e);
    }

    // Keeps the oldest n equations, or all where fewer stand.
    pub(crate) fn truncate(&mut self, n: usize)
        ensures sheet { self.new.sheet ≡ self.old.sheet }
        ensures oldest { stands_in self.new ≡ take n (stands_in self.old) }
    {
        self.standing.truncate(n);
    }
}

// Notes an equation as the newest, where there is room for it.
fn note(standing: &mut Standing, e: Equation)
    requires { length standing.old.vec.items < 256 }
    ensures { standing.new.vec.items ≡ standing.old.vec.items ++ (e ∷ []) }
{
    standing.push(e).unwrap();
}

// A layer for each number of standing equations: in each of them every term is in a class of its own.
fn layers(heap: Global, terms: Terms) -> Result<Vec<Layer>, AllocError>
    ensures { IfOk result (λ ls. Founded (rows terms.entry.list.now) ls.items) }
{
    let mut layers = Vec::with_capacity(heap, ROOM + 1)?;
    let apart = Layer::apart(heap, terms)?;
    for _ in 0..ROOM {
        layers.push_reserved(apart.copied(heap)?);
    }
    layers.push_reserved(apart);
    Ok(layers)
}
