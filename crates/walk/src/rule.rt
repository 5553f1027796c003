// A rule as it is kept: up to 16 literals, in places of its own.

ghost use Rattle.std.specs.Prelude.{◌≡◌, ◌<◌, ◌≤◌, length, take, MatchOption};

use rules::Literal;

// How many literals a rule may have.
pub const LITERALS: usize = 16;

// The array has its length beside it: a rule is `Copy` and lies in the value itself, and the kit's vectors are not both.
#[derive(Clone, Copy)]
pub struct Rule {
    literals: [Literal; 16],
    len: usize,
    ghost short: { len ≤ 16 },
}

impl Rule {
    // The rule of these literals, or none where there are more than 16.
    pub fn new(literals: &[Literal]) -> Option<Rule>
        ensures { MatchOption result (16 < length literals.now) (λ rule. take rule.len rule.literals ≡ literals.now) }
    {
        if literals.len() > LITERALS {
            return None;
        }
        let mut places = [Literal::denied(0, 0); LITERALS];
        places[..literals.len()].copy_from_slice(literals);
        Some(Rule {
            literals: places,
            len: literals.len(),
        })
    }

    // Its literals, in written order.
    pub fn literals(&self) -> &[Literal]
        ensures { result.now ≡ take self.now.len self.now.literals }
    {
        &self.literals[0..self.len]
    }
}
