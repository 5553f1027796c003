// The numbers of the two sides: the even ones are the first's, and the odd ones the second's.

ghost use Rattle.std.specs.Prelude.{◌≡◌, ◌≤◌, length};
ghost use Rattle.logic.specs.Tellings.{answer_of};
ghost use Rattle.sides.specs.Sides.{side_at, part_of, doubled as doubled_of, belongs as belongs_to, share};
ghost use Rattle.sides.specs.Tellings.{passed_on};

use logic::{Equation, Kind, Refusal};
use sides::Side;

// The last term whose number, doubled on either side, is within 65,535.
const LAST_TERM: u32 = 32_767;

// The side of a number.
pub(crate) fn side_of(number: u16) -> Side
    ensures { result ≡ side_at number }
{
    if number % 2 == 0 {
        Side::First
    } else {
        Side::Second
    }
}

// The part that an equation is, if it is between two numbers of one side.
pub(crate) fn part(e: Equation) -> Option<(Side, Equation)>
    ensures { result ≡ part_of e }
{
    if e.left % 2 != e.right % 2 {
        return None;
    }
    let halved = Equation {
        left: e.left / 2,
        right: e.right / 2,
    };
    Some((side_of(e.left), halved))
}

// Whether an equation is a part of that side.
fn belongs(side: Side, e: Equation) -> bool
    ensures { result ≡ belongs_to side (part_of e) }
{
    part(e).is_some_and(|(of, _)| of == side)
}

// How many of the equations are parts of that side.
pub(crate) fn count(side: Side, es: &[Equation]) -> usize
    ensures { result ≡ length (share side es.now) }
{
    let more = |count: usize, e: &Equation| count.wrapping_add(usize::from(belongs(side, *e)));
    es.iter().fold(0, more)
}

// The number of a side, among the numbers of both.
fn doubled(side: Side, number: u32) -> u32
    requires { number ≤ 32767 }
    ensures { result ≡ doubled_of side number }
{
    match side {
        Side::First => 2 * number,
        Side::Second => 2 * number + 1,
    }
}

// What the pair tells where a side tells this.
pub(crate) fn pass_on(
    side: Side,
    answer: Result<(Kind, u32), Refusal>,
) -> Result<(Kind, u32), Refusal>
    ensures { answer_of result ≡ passed_on side (answer_of answer) }
{
    match answer? {
        (Kind::Tower, height) => Ok((Kind::Tower, height)),
        (Kind::Term, term) => {
            if term > LAST_TERM {
                return Err(Refusal::Untold);
            }
            Ok((Kind::Term, doubled(side, term)))
        }
    }
}
