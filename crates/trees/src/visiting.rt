// Visiting the classes, each after those of its arguments. Each class gets a number: that of a name of its own where it has
// only names, and otherwise that of its head's symbol over the numbers of the arguments' classes, as a sheet gives it.
// So two classes get one number exactly where all their compound terms must be equal.

ghost use Rattle.std.specs.Prelude.{◌≡◌, ℕ, ◌<◌, ◌≤◌, OnOk, OnErr, List, [], map, length, vec_len, slice_index};
ghost use Rattle.terms.specs.Sheets.{Row, row, Writable, Sheet};
ghost use Rattle.classes.specs.Classes.{class as classed, Lowest};
ghost use Rattle.unify.specs.Merging.{Tops};
ghost use Rattle.unify.specs.Visits.{mark, number as numbered, Numbered, AllNumbered, Inside, Unfit};
ghost use Rattle.unify.specs.Settling.{number_of, AllVisited};
ghost use Rattle.unify.specs.Firsts.{noted};
ghost use Rattle.sheet.specs.Models.{arities_of, rows_of};
ghost use Rattle.trees.specs.Terms.{rows, arguments_of};
ghost use Rattle.trees.specs.Places.{Visitable, Headed, Writes, Goes};

use crate::clash::Clash;
use crate::layer::Layer;
use crate::term_list::Terms;
use crate::visits::Visits;
use sheet::Compound;
use unify::Mark;

impl Visits {
    // Visits every class.
    pub(crate) fn visit_all(&mut self, terms: Terms, layer: &Layer) -> Result<(), Clash>
        requires classes { Lowest (length (rows terms.list.now)) layer.now.table.items }
        requires heads { Tops (rows terms.list.now) (classed layer.now.table.items) layer.now.heads.items }
        requires sheet { Sheet (arities_of self.old.order) (rows terms.list.now) }
        requires marks { vec_len self.old.marks ≡ length (rows terms.list.now) }
        ensures arities { arities_of self.new.order ≡ arities_of self.old.order }
        ensures lowest { self.new.lowest ≡ self.old.lowest }
        ensures yes { OnOk result (AllVisited (rows terms.entry.list.now) layer.now.table.items layer.now.heads.items self.new.marks.items (rows_of self.new.order) (length (rows terms.entry.list.now))) }
        ensures no { OnErr result (Unfit (rows terms.entry.list.now) (classed layer.now.table.items)) }
    {
        self.reset();
        for class in 0..terms.len() {
            if layer.table[class as usize] == class {
                self.visit(terms, layer, class)?;
            }
        }
        Ok(())
    }

    // Visits a class, and before it those of its head's arguments. A clash where it stands inside itself, so that no trees fit.
    #[cycle(visit_visit_arguments)]
    fn visit(&mut self, terms: Terms, layer: &Layer, class: u16) -> Result<(), Clash>
        requires visiting { Visitable terms.list.now layer.now self.old }
        requires class { (class < length terms.list.now) × (classed layer.now.table.items class ≡ class) }
        requires inside { Inside (rows terms.list.now) (classed layer.now.table.items) self.old.marks.items class 1 }
        ensures arities { arities_of self.new.order ≡ arities_of self.old.order }
        ensures lowest { self.new.lowest ≡ self.old.lowest }
        ensures visits { Goes terms.entry.list.now layer.now self.old self.new (Numbered self.new.marks.items class) result }
    {
        match self.marks[class as usize] {
            Mark::Done(_) => Ok(()),
            Mark::Begun => Err(Clash),
            Mark::Unseen => {
                self.marks[class as usize] = Mark::Begun;
                let head = layer.heads[class as usize];
                if head >= terms.len() {
                    self.write_name(class);
                    return Ok(());
                }
                self.visit_arguments(terms, layer, head, 0)?;
                self.write_head(terms, layer, class, head);
                Ok(())
            }
        }
    }

    // Visits the classes of a compound term's arguments, from a place on.
    #[cycle(visit_visit_arguments)]
    fn visit_arguments(
        &mut self,
        terms: Terms,
        layer: &Layer,
        head: u16,
        place: usize,
    ) -> Result<(), Clash>
        requires visiting { Visitable terms.list.now layer.now self.old }
        requires head { head < length terms.list.now }
        requires place { place ≤ length (arguments_of terms.list.now head) }
        requires inside { Inside (rows terms.list.now) (classed layer.now.table.items) self.old.marks.items head 0 }
        ensures arities { arities_of self.new.order ≡ arities_of self.old.order }
        ensures lowest { self.new.lowest ≡ self.old.lowest }
        ensures visits { Goes terms.entry.list.now layer.now self.old self.new (AllNumbered (classed layer.now.table.items) self.new.marks.items (arguments_of terms.entry.list.now head) place) result }
    {
        if place == terms.arity(head) {
            return Ok(());
        }
        let class = layer.table[terms.argument(head, place) as usize];
        self.visit(terms, layer, class)?;
        self.visit_arguments(terms, layer, head, place + 1)
    }

    // Gives a class that has only names a name's number. (Apart from `write_over`: the two
    // ask different things of the order.)
    fn write_name(&mut self, class: u16)
        requires class { class < vec_len self.old.marks }
        requires room { length (rows_of self.old.order) < 1024 }
        ensures arities { arities_of self.new.order ≡ arities_of self.old.order }
        ensures lowest { self.new.lowest ≡ self.old.lowest }
        ensures placed { Writes self.old self.new class Row.name }
    {
        let number = self.order.name().unwrap();
        self.marks[class as usize] = Mark::Done(number);
    }

    // Gives a class the number of its head's symbol over the numbers of the classes of the head's arguments.
    fn write_head(&mut self, terms: Terms, layer: &Layer, class: u16, head: u16)
        requires writing { Headed terms.list.now layer.now self.old class head }
        ensures arities { arities_of self.new.order ≡ arities_of self.old.order }
        ensures lowest { self.new.lowest ≡ self.old.lowest }
        ensures placed { (s : ℕ) (xs : List ℕ) → row (rows terms.entry.list.now) head ≡ Row.over s xs → Writes self.old self.new class (Row.over s (map (number_of layer.now.table.items self.old.marks.items) xs)) }
    {
        if let Some(compound) = terms.compound(head) {
            let numbers = self.numbers(layer, &compound);
            self.write_over(class, compound.symbol, &numbers[0..compound.arity as usize]);
        }
    }

    // Gives a class the number of a symbol over these numbers.
    fn write_over(&mut self, class: u16, symbol: u8, numbers: &[u16])
        requires class { class < vec_len self.old.marks }
        requires room { length (rows_of self.old.order) < 1024 }
        requires writable { Writable (arities_of self.old.order) (length (rows_of self.old.order)) symbol numbers.now }
        ensures arities { arities_of self.new.order ≡ arities_of self.old.order }
        ensures lowest { self.new.lowest ≡ self.old.lowest }
        ensures placed { Writes self.old self.new class (Row.over symbol numbers.now) }
    {
        let number = self.order.term(symbol, numbers).unwrap();
        self.marks[class as usize] = Mark::Done(number);
    }

    // The numbers of the classes of a compound term's arguments, in as many first places.
    fn numbers(&self, layer: &Layer, compound: &Compound) -> [u16; 8]
        requires arguments { (i : ℕ) → i < compound.now.arity → slice_index compound.now.arguments i < length layer.now.table.items }
        requires classes { (a : ℕ) → a < length layer.now.table.items → slice_index layer.now.table.items a < length self.now.marks.items }
        ensures { (i : ℕ) → i < compound.now.arity → slice_index result i ≡ number_of layer.now.table.items self.now.marks.items (slice_index compound.now.arguments i) }
    {
        let mut numbers = [0; 8];
        for (i, argument) in compound.arguments().iter().enumerate() {
            numbers[i] = self.number(layer.table[*argument as usize]);
        }
        numbers
    }

    // The number that a class has got, or 0.
    pub(crate) fn number(&self, class: u16) -> u16
        requires { class < length self.now.marks.items }
        ensures { result ≡ numbered (mark self.now.marks.items class) }
    {
        match self.marks[class as usize] {
            Mark::Unseen | Mark::Begun => 0,
            Mark::Done(number) => number,
        }
    }

    // The first of the terms of a number that were asked for: this one, unless an earlier one was.
    pub(crate) fn first(&mut self, number: u16, term: u16) -> u16
        requires { number < length self.old.lowest.items }
        ensures noted { self.new.lowest.items ≡ noted self.old.lowest.items number term }
        ensures first { result ≡ slice_index self.new.lowest.items number }
        ensures marks { self.new.marks ≡ self.old.marks }
        ensures order { self.new.order ≡ self.old.order }
    {
        if self.lowest[number as usize] as usize >= self.lowest.len() {
            self.lowest[number as usize] = term;
        }
        self.lowest[number as usize]
    }

    // Marks every class as unseen, and forgets the order.
    fn reset(&mut self)
        ensures arities { arities_of self.new.order ≡ arities_of self.old.order }
        ensures rows { rows_of self.new.order ≡ [] }
        ensures unseen { (c : ℕ) → c < vec_len self.new.marks → mark self.new.marks.items c ≡ Mark.Unseen }
        ensures lowest { self.new.lowest ≡ self.old.lowest }
    {
        self.marks.fill(Mark::Unseen);
        self.order.clear();
    }
}
