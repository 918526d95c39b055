//! A list of numbers, through each of its calls.
use hda_items::Items;
use std::test::Fail;

#[test]
fn keeps_its_items(rt: HostRuntime) -> Result<(), Fail> {
    let mut list = Items::new(rt.alloc());
    assert!(rt; list.is_empty());
    list.push(7u8)?;
    list.push(9u8)?;
    assert!(rt; list.len() == 2);
    let copy = Items::from_slice(rt.alloc(), list.as_slice())?;
    list.clear();
    assert!(rt; list.is_empty());
    let back = Items::from_vec(copy.into_vec());
    assert!(rt; back.as_slice() == [7, 9].as_slice());
    Ok(())
}
