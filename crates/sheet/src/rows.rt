// The rows of a sheet's table: names, and symbols over the numbers of their arguments.

ghost use Rattle.std.specs.Prelude.{◌≡◌, ◌≤◌, length, take, Decides};
ghost use Rattle.terms.specs.Sheets.{Row};

// A term as the table has it.
#[derive(Clone, Copy)]
pub enum Term {
    // A name, for which any tree may stand.
    Name,
    // A compound term.
    Over(Compound),
}

// A symbol over the numbers of its arguments: the first `arity` places count. An array with its length beside it is Copy
// and owns no memory, which no vector of the library is and does.
#[derive(Clone, Copy)]
pub struct Compound {
    pub symbol: u8,
    pub arity: u8,
    pub arguments: [u16; 8],
    ghost small: { arity ≤ 8 },
    ghost long: { length arguments ≡ 8 },
}

impl Compound {
    // The symbol over these arguments.
    pub(crate) fn new(symbol: u8, arguments: &[u16]) -> Compound
        requires { length arguments.now ≤ 8 }
        ensures { Row.over result.symbol (take result.arity result.arguments) ≡ Row.over symbol arguments.now }
    {
        let mut places = [0; 8];
        places[..arguments.len()].copy_from_slice(arguments);
        Compound {
            symbol,
            arity: arguments.len() as u8,
            arguments: places,
        }
    }

    // The numbers of its arguments, first to last.
    pub fn arguments(&self) -> &[u16]
        ensures { result.now ≡ take self.now.arity self.now.arguments }
    {
        &self.arguments[..self.arity as usize]
    }

    // Whether it is the symbol over these arguments. (It is compared with its parts, so no derived equality serves.)
    pub(crate) fn is(&self, symbol: u8, arguments: &[u16]) -> bool
        ensures { Decides result (Row.over self.now.symbol (take self.now.arity self.now.arguments) ≡ Row.over symbol arguments.now) }
    {
        self.symbol == symbol && self.arguments() == arguments
    }
}
