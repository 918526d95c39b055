//! Connection lists as words.
use std::test::Fail;
use verb_codes::pack_list;

#[test]
fn lists_are_packed(rt: HostRuntime) -> Result<(), Fail> {
    let words = pack_list(rt.alloc(), &[0x05, 0x02, 0x87], false)?;
    assert!(rt; words.as_slice() == [0x0087_0205].as_slice());
    let words = pack_list(rt.alloc(), &[0x05, 0x8007, 0x09], true)?;
    assert!(rt; words.as_slice() == [0x8007_0005, 0x0000_0009].as_slice());
    Ok(())
}
