// Operands of the greatest lengths that a count can say. After the operands of [MS-DOC] Sprm: the count of C60D is a
// byte, and D608 counts its rest and 1 in two bytes.
use doc_bits::Memory;
use sprm_table::{Code, SprmFault, list_fault, operand};
use std::alloc::Global;
use std::test::Fail;

/// A code, and behind it so many bytes of 0xFF.
fn list_of(alloc: Global, code: &[u8], len: usize) -> Result<Vec<u8>, Memory> {
    let mut list = Vec::from_slice(alloc, code)?;
    for _k in 0..len {
        list.push(0xFF)?;
    }
    Ok(list)
}

/// Whether the value of an operand behind a code ends with the list, and the list has no fault; else the operand is
/// short, and the list has that fault.
fn fills(code: u16, list: &[u8], value: Option<(usize, usize)>) -> bool {
    let Some(rest) = list.get(2..) else {
        return false;
    };
    let fault = match value {
        Some(_) => None,
        None => Some(SprmFault::Short { at: 0 }),
    };
    operand(Code(code), rest) == value && list_fault(list, 0x22) == fault
}

/// A code and its bytes, how many bytes are behind it, and the range of the value, where these are enough.
struct Row(u16, [u8; 2], usize, Option<(usize, usize)>);

const ROWS: [Row; 4] = [
    Row(0xC60D, [0x0D, 0xC6], 255, None),
    Row(0xC60D, [0x0D, 0xC6], 256, Some((1, 256))),
    Row(0xD608, [0x08, 0xD6], 65_535, None),
    Row(0xD608, [0x08, 0xD6], 65_536, Some((2, 65_536))),
];

/// Whether the list of a row is read so.
fn is_read(alloc: Global, row: &Row) -> Result<bool, Memory> {
    let list = list_of(alloc, &row.1, row.2)?;
    Ok(fills(row.0, &list, row.3))
}

/// Whether the list of each row is read so.
fn are_read(alloc: Global, rows: &[Row]) -> Result<bool, Memory> {
    for row in rows {
        if !is_read(alloc, row)? {
            return Ok(false);
        }
    }
    Ok(true)
}

#[test]
fn operands_have_the_greatest_counts(rt: HostRuntime) -> Result<(), Fail> {
    assert!(rt; are_read(rt.alloc(), &ROWS)?);
    Ok(())
}
