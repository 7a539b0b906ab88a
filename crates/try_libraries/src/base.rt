//! The bytes of a number, as they stand.
use sk_base::number_bytes;
use std::test::Fail;

#[test]
fn the_most_significant_byte_is_first(rt: HostRuntime) -> Result<(), Fail> {
    assert_eq!(rt; number_bytes(1990), [0, 0, 0, 0, 0, 0, 7, 0xc6]);
    Ok(())
}
