// The classes of forced-equal terms where some equations stand: a layer of a history.

ghost use Rattle.std.specs.Prelude.{◌≡◌, length, IfOk, vec_len};
ghost use Rattle.trees.specs.Terms.{rows, alone, heads_alone};

use crate::term_list::Terms;
use std::alloc::{AllocError, Global};

// The terms are merged in place: then `table` has for each term a parent in its class, and `heads` a compound term of each class
// at the term on top.
#[derive(Drop)]
pub(crate) struct Layer {
    // The lowest member of each term's class.
    pub(crate) table: Vec<u16>,
    // The lowest compound term of each class, at the class's lowest member. The count of terms stands for none: so of two heads the
    // lower one is the head of both classes.
    pub(crate) heads: Vec<u16>,
    ghost long: { vec_len heads ≡ vec_len table },
}

impl Layer {
    // Each term is alone in its class.
    pub(crate) fn apart(heap: Global, terms: Terms) -> Result<Layer, AllocError>
        ensures table { IfOk result (λ l. l.table.items ≡ alone (length terms.entry.list.now)) }
        ensures heads { IfOk result (λ l. l.heads.items ≡ heads_alone (length terms.entry.list.now) (rows terms.entry.list.now)) }
    {
        let count = terms.len();
        let mut table = Vec::with_capacity(heap, count as usize)?;
        let mut heads = Vec::with_capacity(heap, count as usize)?;
        for a in 0..count {
            table.push_reserved(a);
            heads.push_reserved(terms.head(a));
        }
        Ok(Layer { table, heads })
    }

    // Another layer with the same classes.
    pub(crate) fn copied(&self, heap: Global) -> Result<Layer, AllocError>
        ensures table { IfOk result (λ l. l.table.items ≡ self.now.table.items) }
        ensures heads { IfOk result (λ l. l.heads.items ≡ self.now.heads.items) }
    {
        let table = Vec::from_slice(heap, &self.table)?;
        let heads = Vec::from_slice(heap, &self.heads)?;
        Ok(Layer { table, heads })
    }

    // Becomes a copy of a layer of as many terms.
    pub(crate) fn copy_from(&mut self, other: &Layer)
        requires { vec_len self.old.table ≡ vec_len other.now.table }
        ensures table { self.new.table.items ≡ other.now.table.items }
        ensures heads { self.new.heads.items ≡ other.now.heads.items }
    {
        self.table.copy_from_slice(&other.table);
        self.heads.copy_from_slice(&other.heads);
    }
}
