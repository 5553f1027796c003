// The table of a sheet: its symbols by their arities, and its terms by their numbers.

ghost use Rattle.std.specs.Prelude.{◌≡◌, ◌<◌, ◌≤◌, [], ◌∷◌, ◌++◌, map, length, take, IfOk, vec_capacity, Decides, MatchResult};
ghost use Rattle.terms.specs.Sheets.{Row, row, Symbols, Writable, Sheet};
ghost use Rattle.sheet.specs.Refusals.{refusal_number};
ghost use Rattle.sheet.specs.Rows.{shape, Fresh};
ghost use Rattle.sheet.specs.Answers.{Unwritable};

use crate::Refusal;
use crate::rows::Term;
use std::alloc::{AllocError, Global};

// How many symbols a sheet may have.
pub(crate) const SYMBOLS: usize = 16;

// How many terms a sheet may have.
pub(crate) const TERMS: usize = 1024;

// What a sheet has: it is one at all times.
#[derive(Drop)]
pub(crate) struct Table {
    // The arity of each symbol.
    arities: Vec<u8>,
    // The terms, each above its arguments.
    terms: Vec<Term>,
    ghost symbol_room: { 16 ≤ vec_capacity arities },
    ghost term_room: { 1024 ≤ vec_capacity terms },
    ghost sheet: { ∥ Sheet arities.items (map shape terms.items) ∥₁ },
}

impl Table {
    // The symbols base and step, and no term. This takes all the memory that a table ever needs.
    pub(crate) fn new(heap: Global) -> Result<Table, AllocError>
        ensures { IfOk result (λ t. (t.arities.items ≡ 0 ∷ (1 ∷ [])) × (t.terms.items ≡ [])) }
    {
        Table::with_symbols(heap, &[0, 1])
    }

    // The same symbols, and no term.
    pub(crate) fn blank(&self, heap: Global) -> Result<Table, AllocError>
        ensures { IfOk result (λ t. (t.arities.items ≡ self.now.arities.items) × (t.terms.items ≡ [])) }
    {
        Table::with_symbols(heap, self.arities.as_slice())
    }

    // The symbols of these arities, and no term.
    fn with_symbols(heap: Global, symbols: &[u8]) -> Result<Table, AllocError>
        requires { Symbols symbols.now }
        ensures { IfOk result (λ t. (t.arities.items ≡ symbols.now) × (t.terms.items ≡ [])) }
    {
        let mut arities = Vec::with_capacity(heap, SYMBOLS)?;
        arities.extend_from_slice(symbols)?;
        let terms = Vec::with_capacity(heap, TERMS)?;
        Ok(Table { arities, terms })
    }

    // How many symbols there are.
    pub(crate) fn symbols(&self) -> usize
        ensures count { result ≡ length self.now.arities.items }
        ensures few { result ≤ 16 }
    {
        self.arities.len()
    }

    // How many terms there are.
    pub(crate) fn len(&self) -> usize
        ensures count { result ≡ length (map shape self.now.terms.items) }
        ensures few { result ≤ 1024 }
    {
        self.terms.len()
    }

    // The arities of the symbols, by their numbers.
    pub(crate) fn arities(&self) -> &[u8]
        ensures { result.now ≡ self.now.arities.items }
    {
        self.arities.as_slice()
    }

    // The terms, by their numbers. With the symbols they are a sheet.
    pub(crate) fn terms(&self) -> &[Term]
        ensures value { result.now ≡ self.now.terms.items }
        ensures long { length result.now ≡ length (map shape self.now.terms.items) }
        ensures sheet { Sheet self.now.arities.items (map shape self.now.terms.items) }
    {
        self.terms.as_slice()
    }

    // Whether the symbol can be written over these arguments, and if not, why.
    pub(crate) fn admits(&self, symbol: u8, arguments: &[u16]) -> Result<(), Refusal>
        ensures { MatchResult result (λ _. Writable self.now.arities.items (length (map shape self.now.terms.items)) symbol arguments.now) (λ e. Unwritable self.now.arities.items (length (map shape self.now.terms.items)) symbol arguments.now (refusal_number e)) }
    {
        let Some(arity) = self.arities.get(symbol as usize) else {
            return Err(Refusal::UnknownSymbol);
        };
        if arguments.len() != *arity as usize {
            return Err(Refusal::WrongCount);
        }
        let is_lacking = |argument: &u16| *argument as usize >= self.terms.len();
        if arguments.iter().any(is_lacking) {
            return Err(Refusal::NoTerm);
        }
        Ok(())
    }

    // Whether the term of that number is the symbol over these arguments.
    pub(crate) fn is(&self, number: u16, symbol: u8, arguments: &[u16]) -> bool
        requires { number < length self.now.terms.items }
        ensures { Decides result (row (map shape self.now.terms.items) number ≡ Row.over symbol arguments.now) }
    {
        match self.terms[number as usize] {
            Term::Name => false,
            Term::Over(compound) => compound.is(symbol, arguments),
        }
    }

    // Adds a symbol of that arity.
    pub(crate) fn push_symbol(&mut self, arity: u8)
        requires small { arity ≤ 8 }
        requires few { length self.old.arities.items < 16 }
        ensures arities { self.new.arities.items ≡ self.old.arities.items ++ (arity ∷ []) }
        ensures terms { self.new.terms.items ≡ self.old.terms.items }
    {
        self.arities.push_reserved(arity);
    }

    // Adds a term that the sheet can take.
    pub(crate) fn push(&mut self, term: Term)
        requires fresh { Fresh self.old.arities.items (map shape self.old.terms.items) (shape term) }
        requires few { length (map shape self.old.terms.items) < 1024 }
        ensures arities { self.new.arities.items ≡ self.old.arities.items }
        ensures terms { self.new.terms.items ≡ self.old.terms.items ++ (term ∷ []) }
    {
        self.terms.push_reserved(term);
    }

    // Forgets the terms.
    pub(crate) fn clear(&mut self)
        ensures arities { self.new.arities.items ≡ self.old.arities.items }
        ensures terms { self.new.terms.items ≡ [] }
    {
        self.terms.clear();
    }
}
