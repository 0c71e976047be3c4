//! Rows of inboxes: order, a full inbox, an empty one, and one beside another.

use port_queue::{Full, Hints, PlainHints};
use std::test::Fail;

/// How many hints an inbox holds. The number stands here once more, so that another limit fails.
const ROOM: u32 = 1_024;

/// An inbox gives 1,024 hints in order, and takes no more before one of them is gone.
#[test]
fn inboxes_are_lists(rt: HostRuntime) -> Result<(), Fail> {
    let mut hints = PlainHints::new(rt.alloc())?;
    assert!(rt; hints.next(1_022) == None);
    for port in 0..ROOM {
        assert!(rt; hints.post(5, port) == Ok(()), "port {port}");
    }
    assert!(rt; hints.post(5, 9) == Err(Full));
    assert!(rt; hints.post(1_022, 4_095) == Ok(()));
    for port in 0..ROOM {
        assert!(rt; hints.next(5) == Some(port));
    }
    assert!(rt; hints.next(5) == None);
    assert!(rt; hints.next(1_022) == Some(4_095));
    assert!(rt; hints.post(5, 9) == Ok(()));
    assert!(rt; hints.next(5) == Some(9));
    Ok(())
}
