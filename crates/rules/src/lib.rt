// Rules and the walk of an ask. The walk is a relation (specs/Walks.antt) over any theory; what its end says of the worlds
// and of the trials, that it ends in one way, and how budgets relate is proved here once (specs/Laws.antt).

#![tactic(auto)]

ghost use Rattle.std.specs.Prelude.{◌≡◌};
ghost use Rattle.rules.specs.Rules.{equation_of};
ghost use Rattle.rules.specs.declared.Literal.TheVariants as V;

use logic::Equation;
use std::fmt;

// An equation that is to be true, or a denial: an equation that is to be false.
#[derive(Clone, Copy, PartialEq, Eq, Debug)]
pub enum Literal {
    Equal(Equation),
    Denied(Equation),
}

impl Literal {
    // The equation between two numbers is to be true.
    pub fn equal(left: u16, right: u16) -> Literal
        ensures { result ≡ V.Equal (record { left = left; right = right }) }
    {
        Literal::Equal(Equation { left, right })
    }

    // The equation between two numbers is to be false.
    pub fn denied(left: u16, right: u16) -> Literal
        ensures { result ≡ V.Denied (record { left = left; right = right }) }
    {
        Literal::Denied(Equation { left, right })
    }

    // The equation that it asserts or denies.
    pub fn equation(self) -> Equation
        ensures { result ≡ equation_of self }
    {
        match self {
            Literal::Equal(e) | Literal::Denied(e) => e,
        }
    }
}

impl fmt::Display for Literal {
    fn fmt<W: fmt::Write>(&self, f: &mut fmt::Formatter<W>) -> fmt::Result {
        match self {
            Literal::Equal(e) => write!(f, "{e}"),
            Literal::Denied(e) => write!(f, "{} != {}", e.left, e.right),
        }
    }
}
