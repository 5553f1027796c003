// Both sides of each limit, run.

use super::*;
use std::test::Fail;

fn on(switch: u16) -> Equation {
    Equation::new(switch, 0)
}

#[test]
fn switches_end_at_255(rt: HostRuntime) -> Result<(), Fail> {
    let mut switches = Switches::new(rt.alloc())?;
    assert!(rt; switches.has(on(255)));
    assert_eq!(rt; switches.assume(on(256)), Err(Refusal::Foreign));
    assert_eq!(rt; switches.standing(), 0);
    assert_eq!(rt; switches.assume(on(255)), Ok(Assumed::Taken));
    assert_eq!(rt; switches.tell(255), Ok((Kind::Tower, 0)));
    assert_eq!(rt; switches.tell(254), Ok((Kind::Tower, 1)));
    assert_eq!(rt; switches.tell(256), Err(Refusal::Untold));
    Ok(())
}

#[test]
fn equations_end_at_256(rt: HostRuntime) -> Result<(), Fail> {
    let mut switches = Switches::new(rt.alloc())?;
    for _ in 0..255 {
        assert_eq!(rt; switches.assume(on(7)), Ok(Assumed::Taken));
    }
    assert_eq!(rt; switches.assume(on(8)), Ok(Assumed::Taken));
    assert_eq!(rt; switches.assume(on(9)), Err(Refusal::Full));
    assert_eq!(rt; switches.assume(on(256)), Err(Refusal::Foreign));
    assert_eq!(rt; switches.standing(), 256);
    assert!(rt; switches.forced(on(8)));
    assert!(rt; !switches.forced(on(9)));
    Ok(())
}

#[test]
fn back_keeps_the_oldest(rt: HostRuntime) -> Result<(), Fail> {
    let mut switches = Switches::new(rt.alloc())?;
    assert_eq!(rt; switches.assume(on(3)), Ok(Assumed::Taken));
    assert_eq!(rt; switches.assume(on(5)), Ok(Assumed::Taken));
    assert_eq!(rt; switches.assume(on(3)), Ok(Assumed::Taken));
    switches.back(usize::MAX);
    assert_eq!(rt; switches.standing(), 3);
    switches.back(1);
    assert_eq!(rt; switches.standing(), 1);
    assert!(rt; switches.forced(on(3)));
    assert!(rt; !switches.forced(on(5)));
    switches.back(0);
    assert!(rt; !switches.forced(on(3)));
    Ok(())
}
