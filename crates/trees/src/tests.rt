// Both sides of each limit, run.

use super::*;
use std::process::Abort;
use std::test::Fail;

fn equal(left: u16, right: u16) -> Equation {
    Equation::new(left, right)
}

// A sheet of so many names.
fn names(rt: &impl Abort, heap: Global, count: u16) -> Result<OpenSheet, Fail> {
    let mut sheet = OpenSheet::new(heap)?;
    for _ in 0..count {
        assert!(rt; sheet.name().is_ok());
    }
    Ok(sheet)
}

#[test]
fn equations_end_at_256(rt: HostRuntime) -> Result<(), Fail> {
    let mut trees = Trees::new(rt.alloc(), names(&rt, rt.alloc(), 258)?)?;
    for name in 0..256 {
        assert_eq!(rt; trees.assume(equal(name, name + 1)), Ok(Assumed::Taken));
    }
    assert_eq!(rt; trees.assume(equal(5, 5)), Err(Refusal::Full));
    assert_eq!(rt; trees.assume(equal(5, 258)), Err(Refusal::Foreign));
    assert_eq!(rt; trees.standing(), 256);
    assert!(rt; trees.forced(equal(0, 256)));
    assert!(rt; !trees.forced(equal(0, 257)));
    Ok(())
}

#[test]
fn equal_arguments_make_equal_terms(rt: HostRuntime) -> Result<(), Fail> {
    let mut sheet = names(&rt, rt.alloc(), 2)?;
    assert!(rt; sheet.term(1, &[0]).is_ok());
    assert!(rt; sheet.term(1, &[1]).is_ok());
    let mut trees = Trees::new(rt.alloc(), sheet)?;
    assert_eq!(rt; trees.assume(equal(0, 1)), Ok(Assumed::Taken));
    assert!(rt; trees.forced(equal(2, 3)));
    trees.back(0);
    assert!(rt; !trees.forced(equal(2, 3)));
    assert_eq!(rt; trees.assume(equal(3, 2)), Ok(Assumed::Taken));
    assert!(rt; trees.forced(equal(0, 1)));
    Ok(())
}

#[test]
fn a_term_inside_itself_clashes(rt: HostRuntime) -> Result<(), Fail> {
    let mut sheet = names(&rt, rt.alloc(), 2)?;
    assert!(rt; sheet.term(1, &[0]).is_ok());
    let mut trees = Trees::new(rt.alloc(), sheet)?;
    assert_eq!(rt; trees.assume(equal(0, 1)), Ok(Assumed::Taken));
    assert_eq!(rt; trees.assume(equal(1, 2)), Ok(Assumed::Clash));
    assert_eq!(rt; trees.standing(), 1);
    assert!(rt; trees.forced(equal(0, 1)));
    assert!(rt; !trees.forced(equal(0, 2)));
    assert_eq!(rt; trees.tell(0), Ok((Kind::Tower, 3)));
    Ok(())
}

#[test]
fn names_are_told_heads_or_towers(rt: HostRuntime) -> Result<(), Fail> {
    let mut sheet = names(&rt, rt.alloc(), 3)?;
    assert!(rt; sheet.term(0, &[]).is_ok());
    let mut trees = Trees::new(rt.alloc(), sheet)?;
    assert_eq!(rt; trees.assume(equal(0, 1)), Ok(Assumed::Taken));
    assert_eq!(rt; trees.tell(1), Ok((Kind::Tower, 4)));
    assert_eq!(rt; trees.tell(2), Ok((Kind::Tower, 8)));
    assert_eq!(rt; trees.assume(equal(1, 3)), Ok(Assumed::Taken));
    assert_eq!(rt; trees.tell(0), Ok((Kind::Term, 3)));
    assert_eq!(rt; trees.tell(2), Ok((Kind::Tower, 4)));
    assert_eq!(rt; trees.tell(3), Err(Refusal::Untold));
    assert_eq!(rt; trees.tell(4), Err(Refusal::Untold));
    Ok(())
}
