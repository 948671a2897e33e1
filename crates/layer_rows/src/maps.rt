// Maps of properties: copies of one.
use crate::lent::is_made;
use doc_bits::Memory;
use prop_map::PropMap;
use sprm_table::Code;
use std::alloc::Global;
use std::test::Fail;

/// A map of two properties.
fn two_properties(alloc: Global) -> Result<PropMap, Memory> {
    let mut map = PropMap::new(alloc);
    map.set(Code(0x0835), &[1])?;
    map.set(Code(0x4A43), &[0x1C, 0])?;
    Ok(map)
}

/// Whether copies of a map, so many at once, are equal to it and stay so while another copy is changed.
fn are_alike(alloc: Global, map: &PropMap, count: usize) -> Result<bool, Memory> {
    let mut copies = Vec::new(alloc);
    for _k in 0..count {
        copies.push(map.copy(alloc)?)?;
    }
    let mut other = map.copy(alloc)?;
    other.set(Code(0x0836), &[1])?;
    for copy in &copies {
        if !copy.equal(map) {
            return Ok(false);
        }
    }
    Ok(!other.equal(map))
}

/// Whether copies of a map of two properties are equal to it, and another map is not.
fn are_two_alike(alloc: Global, count: usize) -> Result<bool, Memory> {
    is_made(
        two_properties(alloc),
        |map: &PropMap| -> Result<bool, Memory> { are_alike(alloc, map, count) },
    )
}

// As many copies as the items of a long document have.
#[test]
fn copies_share_the_entries(rt: HostRuntime) -> Result<(), Fail> {
    assert!(rt; are_two_alike(rt.alloc(), 500_000)?);
    Ok(())
}
