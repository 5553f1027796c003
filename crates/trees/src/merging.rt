// Bringing two terms together: unification on classes of terms. A class is a tree of parents, with the term that stands for
// it on top; `heads` has a compound term of each class at that term.

ghost use Rattle.std.specs.Prelude.{◌≡◌, ℕ, ◌<◌, ◌≤◌, min, max, length, OnOk, OnErr, vec_len, slice_index, slice_set};
ghost use Rattle.unify.specs.Parents.{Parents, Rooted};
ghost use Rattle.unify.specs.Merging.{Agree};
ghost use Rattle.unify.specs.Settling.{Tabled, Unified, Refuted};
ghost use Rattle.classes.specs.Classes.{class};
ghost use Rattle.trees.specs.Terms.{rows, arguments_of};
ghost use Rattle.trees.specs.Merges.{Finds, Unites};

use crate::clash::Clash;
use crate::layer::Layer;
use crate::term_list::Terms;

impl Layer {
    // Brings two terms together.
    pub(crate) fn unify(&mut self, terms: Terms, left: u16, right: u16) -> Result<(), Clash>
        requires tabled { Tabled (rows terms.list.now) self.old.table.items self.old.heads.items }
        requires sides { (left < length terms.list.now) × (right < length terms.list.now) }
        ensures long { vec_len self.new.table ≡ vec_len self.old.table }
        ensures yes { OnOk result (Unified (rows terms.entry.list.now) (class self.old.table.items) left right self.new.table.items self.new.heads.items) }
        ensures no { OnErr result (Refuted (rows terms.entry.list.now) (class self.old.table.items) left right) }
    {
        self.merge_terms(terms, left, right)?;
        self.flatten();
        Ok(())
    }

    // Brings two terms of a forest of parents together.
    #[cycle(merge_arguments_merge_terms)]
    fn merge_terms(&mut self, terms: Terms, a: u16, b: u16) -> Result<(), Clash>
        requires parents { Parents (length terms.list.now) self.old.table.items }
        requires sides { (a < length terms.list.now) × (b < length terms.list.now) }
        ensures { Unites terms.entry.list.now self.old self.new (λ f. f a ≡ f b) (λ v. v a ≡ v b) result }
    {
        let x = self.find(a);
        let y = self.find(b);
        if x == y {
            return Ok(());
        }
        let first = self.heads[x as usize];
        let second = self.heads[y as usize];
        self.join(x, y);
        if first >= terms.len() || second >= terms.len() {
            return Ok(());
        }
        if !terms.alike(first, second) {
            return Err(Clash);
        }
        self.merge_arguments(terms, first, second, 0)
    }

    // Brings the arguments of two compound terms together, from a place on.
    #[cycle(merge_arguments_merge_terms)]
    fn merge_arguments(&mut self, terms: Terms, a: u16, b: u16, place: usize) -> Result<(), Clash>
        requires parents { Parents (length terms.list.now) self.old.table.items }
        requires sides { (a < length terms.list.now) × (b < length terms.list.now) }
        requires same { length (arguments_of terms.list.now b) ≡ length (arguments_of terms.list.now a) }
        requires place { place ≤ length (arguments_of terms.list.now a) }
        ensures { Unites terms.entry.list.now self.old self.new (Agree (arguments_of terms.entry.list.now a) (arguments_of terms.entry.list.now b) place) (Agree (arguments_of terms.entry.list.now a) (arguments_of terms.entry.list.now b) place) result }
    {
        if place == terms.arity(a) {
            return Ok(());
        }
        let x = terms.argument(a, place);
        let y = terms.argument(b, place);
        self.merge_terms(terms, x, y)?;
        self.merge_arguments(terms, a, b, place + 1)
    }

    // The term that stands for the class of a term. The terms on the way there are moved up.
    fn find(&mut self, term: u16) -> u16
        requires parents { Parents (length self.old.table.items) self.old.table.items }
        requires term { term < length self.old.table.items }
        ensures { Finds self.old self.new term result }
    {
        let mut at = term;
        while self.table[at as usize] != at {
            let up = self.table[self.table[at as usize] as usize];
            self.table[at as usize] = up;
            at = up;
        }
        at
    }

    // Makes one class of two, of which x and y stand on top: the higher of them goes under the lower.
    fn join(&mut self, x: u16, y: u16)
        requires { (x < vec_len self.old.table) × (y < vec_len self.old.table) }
        ensures parents { self.new.table.items ≡ slice_set self.old.table.items (max x y) (min x y) }
        ensures heads { self.new.heads.items ≡ slice_set self.old.heads.items (min x y) (min (slice_index self.old.heads.items (min x y)) (slice_index self.old.heads.items (max x y))) }
    {
        let low = x.min(y);
        let high = x.max(y);
        self.heads[low as usize] = self.heads[low as usize].min(self.heads[high as usize]);
        self.table[high as usize] = low;
    }

    // Puts each term right under the one that stands for its class. (By index: an entry is read at another place than that
    // where it is written.)
    fn flatten(&mut self)
        requires { Parents (length self.old.table.items) self.old.table.items }
        ensures flat { (f : ℕ → ℕ) → Rooted (length self.old.table.items) self.old.table.items f → (a : ℕ) → a < length self.old.table.items → class self.new.table.items a ≡ f a }
        ensures long { length self.new.table.items ≡ length self.old.table.items }
        ensures heads { self.new.heads.items ≡ self.old.heads.items }
    {
        for a in 0..self.table.len() {
            self.table[a] = self.table[self.table[a] as usize];
        }
    }
}
