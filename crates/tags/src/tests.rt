// Both sides of each limit, run.

use super::*;
use std::test::Fail;

fn equal(left: u16, right: u16) -> Equation {
    Equation::new(left, right)
}

#[test]
fn tags_end_at_1023(rt: HostRuntime) -> Result<(), Fail> {
    let mut tags = Tags::new(rt.alloc())?;
    assert!(rt; tags.has(equal(1023, 0)));
    assert_eq!(rt; tags.assume(equal(0, 1024)), Err(Refusal::Foreign));
    assert_eq!(rt; tags.assume(equal(1024, 0)), Err(Refusal::Foreign));
    assert_eq!(rt; tags.standing(), 0);
    assert_eq!(rt; tags.tell(1023), Ok((Kind::Tower, 1024)));
    assert_eq!(rt; tags.tell(1024), Err(Refusal::Untold));
    Ok(())
}

#[test]
fn groups_go_by_lowest_member(rt: HostRuntime) -> Result<(), Fail> {
    let mut tags = Tags::new(rt.alloc())?;
    assert_eq!(rt; tags.assume(equal(9, 2)), Ok(Assumed::Taken));
    assert_eq!(rt; tags.assume(equal(1, 9)), Ok(Assumed::Taken));
    assert!(rt; tags.forced(equal(2, 1)));
    assert!(rt; !tags.forced(equal(0, 1)));
    assert_eq!(rt; tags.tell(0), Ok((Kind::Tower, 1)));
    assert_eq!(rt; tags.tell(9), Ok((Kind::Tower, 2)));
    assert_eq!(rt; tags.tell(3), Ok((Kind::Tower, 3)));
    assert_eq!(rt; tags.tell(1023), Ok((Kind::Tower, 1022)));
    Ok(())
}

#[test]
fn equations_end_at_256(rt: HostRuntime) -> Result<(), Fail> {
    let mut tags = Tags::new(rt.alloc())?;
    for tag in 0..256 {
        assert_eq!(rt; tags.assume(equal(tag, tag + 1)), Ok(Assumed::Taken));
    }
    assert_eq!(rt; tags.assume(equal(5, 5)), Err(Refusal::Full));
    assert_eq!(rt; tags.assume(equal(5, 1024)), Err(Refusal::Foreign));
    assert!(rt; tags.forced(equal(0, 256)));
    assert!(rt; !tags.forced(equal(0, 257)));
    Ok(())
}

#[test]
fn back_keeps_the_oldest(rt: HostRuntime) -> Result<(), Fail> {
    let mut tags = Tags::new(rt.alloc())?;
    assert_eq!(rt; tags.assume(equal(3, 5)), Ok(Assumed::Taken));
    assert_eq!(rt; tags.assume(equal(5, 7)), Ok(Assumed::Taken));
    tags.back(usize::MAX);
    assert_eq!(rt; tags.standing(), 2);
    tags.back(1);
    assert_eq!(rt; tags.standing(), 1);
    assert!(rt; tags.forced(equal(3, 5)));
    assert!(rt; !tags.forced(equal(3, 7)));
    tags.back(0);
    assert!(rt; !tags.forced(equal(3, 5)));
    Ok(())
}
