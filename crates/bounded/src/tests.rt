// Both sides of the limit, run.

use super::*;
use std::test::Fail;

#[test]
fn items_end_at_the_limit(rt: HostRuntime) -> Result<(), Fail> {
    let mut items: Bounded<u8, 3> = Bounded::new(rt.alloc())?;
    assert_eq!(rt; items.pop(), None);
    assert_eq!(rt; items.push(5), Ok(()));
    assert_eq!(rt; items.push(6), Ok(()));
    assert!(rt; !items.is_full());
    assert_eq!(rt; items.push(7), Ok(()));
    assert!(rt; items.is_full());
    assert_eq!(rt; items.push(8), Err(Full));
    assert_eq!(rt; items.as_slice(), [5, 6, 7].as_slice());
    assert_eq!(rt; items.pop(), Some(7));
    assert_eq!(rt; items.len(), 2);
    items.truncate(1);
    items.truncate(5);
    assert_eq!(rt; items.as_slice(), [5].as_slice());
    Ok(())
}
