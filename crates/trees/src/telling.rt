// What a layer tells of a name.

ghost use Rattle.std.specs.Prelude.{◌≡◌, suc, ◌<◌, ◌≤◌, List, length, vec_len};
ghost use Rattle.std.specs.List.{count_by, range_with_len};
ghost use Rattle.logic.specs.Tellings.{kind_number};
ghost use Rattle.logic.specs.Tellings.Told.{told};
ghost use Rattle.terms.specs.Sheets.{Row};
ghost use Rattle.classes.specs.Classes.{Lowest};
ghost use Rattle.trees.specs.Models.{leads_names, told_by_table};

use crate::layer::Layer;
use logic::Kind;

impl Layer {
    // What is told of a name: the head of its class, or else the tower of its group.
    pub(crate) fn told(&self, name: u16) -> (Kind, u32)
        requires few { vec_len self.now.table ≤ 1024 }
        requires lowest { Lowest (vec_len self.now.table) self.now.table.items }
        requires name { name < vec_len self.now.table }
        ensures { (rs : List Row) → length rs ≡ vec_len self.now.table → told (kind_number result.0) result.1 ≡ told_by_table rs self.now.table.items self.now.heads.items name }
    {
        let count = self.table.len();
        let lead = self.table[name as usize];
        let head = self.heads[lead as usize];
        if (head as usize) < count {
            return (Kind::Term, u32::from(head));
        }
        (Kind::Tower, (self.group(lead) * count) as u32)
    }

    // The number of a class among those that have only names, counted from 1 by lowest member.
    fn group(&self, lead: u16) -> usize
        requires { lead < vec_len self.now.table }
        ensures value { result ≡ suc (count_by (leads_names self.now.table.items self.now.heads.items) (range_with_len 0 lead)) }
        ensures within { result ≤ suc lead }
    {
        self.groups_before(lead) + 1
    }

    // How many classes that have only names have a lowest member below a term.
    fn groups_before(&self, lead: u16) -> usize
        requires { lead < vec_len self.now.table }
        ensures value { result ≡ count_by (leads_names self.now.table.items self.now.heads.items) (range_with_len 0 lead) }
        ensures within { result ≤ lead }
    {
        let more = |count: usize, other: u16| {
            count.wrapping_add(usize::from(self.leads_names(other)))
        };
        (0..lead).fold(0, more)
    }

    // Whether a term is the lowest of a class that has only names. (Both tests are made, with no branch between them, so that
    // counting goes over several terms at once.)
    fn leads_names(&self, term: u16) -> bool
        requires { term < vec_len self.now.table }
        ensures { result ≡ leads_names self.now.table.items self.now.heads.items term }
    {
        let is_lowest = self.table[term as usize] == term;
        let has_no_head = self.heads[term as usize] as usize >= self.table.len();
        is_lowest & has_no_head
    }
}
