// The classes of forced-equal terms after one equation more.

ghost use Rattle.std.specs.Prelude.{◌≡◌, ℕ, ◌+◌, ◌<◌, ◌≤◌, OnOk, OnErr, List, [], ◌∷◌, ◌++◌, length, vec_len, slice_index};
ghost use Rattle.logic.specs.declared.Equation.{Equation as Pair};
ghost use Rattle.classes.specs.Classes.{class, Heads, Settled};
ghost use Rattle.unify.specs.Settling.{Tabled, Refuted, Lows, number_of};
ghost use Rattle.unify.specs.Firsts.{noted};
ghost use Rattle.trees.specs.Terms.{rows};
ghost use Rattle.trees.specs.Layers.{Ready, Nexts, SettledAt, table_at, heads_at};

use crate::clash::Clash;
use crate::layer::Layer;
use crate::term_list::Terms;
use crate::visits::Visits;
use logic::Equation;

impl Layer {
    // Brings the two sides of an equation together. After a clash the layer is of no use.
    pub(crate) fn bring(
        &mut self,
        terms: Terms,
        visits: &mut Visits,
        e: Equation,
    ) -> Result<(), Clash>
        requires tabled { Tabled (rows terms.list.now) self.old.table.items self.old.heads.items }
        requires ready { Ready (rows terms.list.now) visits.old }
        requires sides { (e.left < length terms.list.now) × (e.right < length terms.list.now) }
        ensures long { vec_len self.new.table ≡ vec_len self.old.table }
        ensures ready { Ready (rows terms.entry.list.now) visits.new }
        ensures yes { OnOk result ((es : List Pair) → Settled (rows terms.entry.list.now) es self.old.table.items self.old.heads.items → Settled (rows terms.entry.list.now) (es ++ (e ∷ [])) self.new.table.items self.new.heads.items) }
        ensures no { OnErr result (Refuted (rows terms.entry.list.now) (class self.old.table.items) e.left e.right) }
    {
        self.unify(terms, e.left, e.right)?;
        visits.visit_all(terms, self)?;
        self.lower(visits);
        self.find_heads(terms);
        Ok(())
    }

    // Puts the lowest term of the same number in the place of each term's class. (By index: with the entries lent by an
    // iterator, the proof of the layer's ghost field didn't close.)
    fn lower(&mut self, visits: &mut Visits)
        requires few { vec_len self.old.table ≤ 1024 }
        requires many { vec_len visits.old.marks ≡ vec_len self.old.table }
        requires classes { (a : ℕ) → a < vec_len self.old.table → slice_index self.old.table.items a < vec_len self.old.table }
        requires numbers { (a : ℕ) → a < vec_len self.old.table → number_of self.old.table.items visits.old.marks.items a < vec_len self.old.table }
        ensures lows { Lows (vec_len self.old.table) (number_of self.old.table.items visits.old.marks.items) self.new.table.items }
        ensures marks { visits.new.marks ≡ visits.old.marks }
        ensures order { visits.new.order ≡ visits.old.order }
    {
        visits.lowest.fill(self.table.len() as u16);
        for a in 0..self.table.len() {
            let number = visits.number(self.table[a]);
            self.table[a] = visits.first(number, a as u16);
        }
    }

    // Finds the lowest compound term of each class.
    fn find_heads(&mut self, terms: Terms)
        requires long { vec_len self.old.table ≡ length terms.list.now }
        requires classes { (a : ℕ) → a < vec_len self.old.table → slice_index self.old.table.items a < length terms.list.now }
        ensures heads { Heads (rows terms.entry.list.now) self.old.table.items self.new.heads.items }
        ensures table { self.new.table.items ≡ self.old.table.items }
    {
        self.heads.fill(terms.len());
        for a in 0..terms.len() {
            if terms.is_compound(a) {
                let class = self.table[a as usize];
                self.note_head(class, a);
            }
        }
    }

    // Makes a compound term the head of its class, unless a lower one is.
    fn note_head(&mut self, class: u16, term: u16)
        requires { class < length self.old.heads.items }
        ensures heads { self.new.heads.items ≡ noted self.old.heads.items class term }
        ensures table { self.new.table.items ≡ self.old.table.items }
    {
        if self.heads[class as usize] as usize >= self.heads.len() {
            self.heads[class as usize] = term;
        }
    }
}

// Makes the layer after that of a level for one equation more.
pub(crate) fn next_layer(
    layers: &mut [Layer],
    visits: &mut Visits,
    terms: Terms,
    level: usize,
    e: Equation,
) -> Result<(), Clash>
    requires level { level + 1 < length layers.old }
    requires wide { length (table_at (level + 1) layers.old) ≡ length terms.list.now }
    requires tabled { Tabled (rows terms.list.now) (table_at level layers.old) (heads_at level layers.old) }
    requires ready { Ready (rows terms.list.now) visits.old }
    requires sides { (e.left < length terms.list.now) × (e.right < length terms.list.now) }
    ensures ready { Ready (rows terms.entry.list.now) visits.new }
    ensures next { Nexts (rows terms.entry.list.now) level e layers.old layers.new result }
{
    let (olds, news) = layers.split_at_mut(level + 1);
    let old = &olds[level];
    let next = &mut news[0];
    next.copy_from(old);
    next.bring(terms, visits, e)
}
