// Inputs and the bytes that are read of them.
use super::read_bytes;
use std::test::Fail;

#[test]
fn whole(rt: HostRuntime) -> Result<(), Fail> {
    let bytes = read_bytes(rt.alloc(), b"kind box".as_slice())?;
    assert_eq!(rt; bytes.as_slice(), b"kind box".as_slice());
    Ok(())
}

#[test]
fn one_too_many(rt: HostRuntime) -> Result<(), Fail> {
    let input = vec![in rt.alloc(); b' '; 70000]?;
    let bytes = read_bytes(rt.alloc(), input.as_slice())?;
    assert_eq!(rt; bytes.len(), 65537);
    Ok(())
}
