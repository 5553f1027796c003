// Two logics, of any make.

use logic::Logic;

#[derive(Drop)]
pub(crate) struct Both<A: Logic, B: Logic> {
    pub(crate) first: A,
    pub(crate) second: B,
}
