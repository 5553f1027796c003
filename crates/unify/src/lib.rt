// Theory of unification on a sheet: what bringing two terms together does to the classes of terms, and how classes are put
// in order. There is no code here but the marks by which a visit goes.

#![tactic(auto)]

// How far the visit of a class has come.
#[derive(Clone, Copy)]
pub enum Mark {
    // Not begun.
    Unseen,
    // Begun: the classes of its arguments are being visited.
    Begun,
    // Done, with the number that the class has got.
    Done(u16),
}
