// The size of an item.
use plain_doc::Item;
use std::mem;
use std::test::Fail;

// A text of 400,000 items takes 32 megabytes.
#[test]
fn an_item_is_small(rt: HostRuntime) -> Result<(), Fail> {
    assert!(rt; mem::size_of::<Item>() <= 80);
    Ok(())
}
