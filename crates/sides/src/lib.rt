// Theory of two logics side by side: the even numbers are the first's, and the odd ones the second's.

#![tactic(auto)]

// One of two logics.
#[derive(Clone, Copy, PartialEq, Eq, Debug)]
pub enum Side {
    First,
    Second,
}
