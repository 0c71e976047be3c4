//! Rows of lists and texts.

use base::{List, Text};
use std::test::Fail;

#[test]
fn a_list_holds_its_items(rt: HostRuntime) -> Result<(), Fail> {
    let list: List<u32> = List::of(vec![in rt.alloc(); 7, 5, 7]?);
    assert!(rt; list.items() == [7, 5, 7].as_slice());
    assert!(rt; list.into_vec().as_slice() == [7, 5, 7].as_slice());
    Ok(())
}

#[test]
fn a_text_holds_its_bytes(rt: HostRuntime) -> Result<(), Fail> {
    let text = Text::from_bytes(rt.alloc(), b"a\xff")?;
    let copy = text.try_clone()?;
    assert!(rt; copy.as_bytes() == b"a\xff".as_slice());
    assert!(rt; text == copy);
    assert!(rt; text != Text::from_bytes(rt.alloc(), b"a")?);
    Ok(())
}
