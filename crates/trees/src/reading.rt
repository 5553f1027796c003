// What a history says of its terms.

ghost use Rattle.std.specs.Prelude.{◌≡◌, ◌<◌, ◌≤◌, true, false, length, Decides};
ghost use Rattle.logic.specs.Tellings.{kind_number};
ghost use Rattle.logic.specs.Tellings.Told.{told as telling};
ghost use Rattle.terms.specs.Trees.{Name, ForcedEqual, TreeTold};
ghost use Rattle.sheet.specs.Models.{Read};
ghost use Rattle.trees.specs.Models.{arities_in, rows_in, stands_in, table_in, heads_in};

use crate::history::History;
use crate::layer::Layer;
use crate::term_list::Terms;
use logic::Kind;
use sheet::Term;

impl History {
    // The arities of the sheet's symbols, by their numbers.
    pub(crate) fn arities(&self) -> &[u8]
        ensures { result.now ≡ arities_in self.now }
    {
        self.sheet.arities()
    }

    // The terms of the sheet, by their numbers.
    pub(crate) fn terms(&self) -> &[Term]
        ensures { Read self.now.sheet result.now }
    {
        self.sheet.terms()
    }

    // How many terms there are.
    pub(crate) fn count(&self) -> u16
        ensures count { result ≡ length (rows_in self.now) }
        ensures few { result ≤ 1024 }
    {
        Terms::of(&self.sheet).len()
    }

    // How many equations stand.
    pub(crate) fn len(&self) -> usize
        ensures count { result ≡ length (stands_in self.now) }
        ensures few { result ≤ 256 }
    {
        self.standing.len()
    }

    // The classes of terms that they force equal.
    fn top(&self) -> &Layer
        ensures table { result.now.table.items ≡ table_in self.now }
        ensures heads { result.now.heads.items ≡ heads_in self.now }
    {
        &self.layers[self.standing.len()]
    }

    // Whether two terms are forced equal.
    pub(crate) fn joins(&self, a: u16, b: u16) -> bool
        requires { (a < length (rows_in self.now)) × (b < length (rows_in self.now)) }
        ensures { Decides result (ForcedEqual (arities_in self.now) (rows_in self.now) (stands_in self.now) a b) }
    {
        let table = &self.top().table;
        table[a as usize] == table[b as usize]
    }

    // Whether the number is a name.
    pub(crate) fn is_name(&self, number: u16) -> bool
        ensures yes { result ≡ true → Name (arities_in self.now) (rows_in self.now) number }
        ensures no { result ≡ false → Name (arities_in self.now) (rows_in self.now) number → ⊥ }
    {
        Terms::of(&self.sheet).is_name(number)
    }

    // What is told of a name.
    pub(crate) fn told(&self, name: u16) -> (Kind, u32)
        requires { Name (arities_in self.now) (rows_in self.now) name }
        ensures { TreeTold (arities_in self.now) (rows_in self.now) (stands_in self.now) name (telling (kind_number result.0) result.1) }
    {
        self.top().told(name)
    }
}
