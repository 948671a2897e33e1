// Field characters by the bytes of their part. The bytes were worked out by hand from [MS-DOC] PlcFld and Fld.
use doc_parts::{Flds, PartFault, fields};
use std::alloc::Global;
use std::test::Fail;

/// A field of type 33, its separator and its end: at 2, 5 and 9 of a story of 20 units.
const PLC: [u8; 22] = [
    2, 0, 0, 0, 5, 0, 0, 0, 9, 0, 0, 0, 20, 0, 0, 0, 0x13, 33, 0x14, 0xFF, 0x15, 0x80,
];

/// The characters of a part that is at 100.
fn read(alloc: Global, plc: &[u8]) -> Result<Flds, PartFault> {
    if plc.len() > 22 {
        return Err(PartFault::Memory);
    }
    fields(alloc, plc, 100, 20)
}

/// Whether the list has these.
fn are(list: &Flds, rows: &[(u32, u16, u8)]) -> bool {
    if list.len() != rows.len() {
        return false;
    }
    for i in 0..rows.len() {
        if list.get(i) != rows[i] {
            return false;
        }
    }
    true
}

/// Whether a part has these: the CP, the unit and the byte of each.
fn has(alloc: Global, plc: &[u8], rows: &[(u32, u16, u8)]) -> bool {
    match &read(alloc, plc) {
        Ok(list) => are(list, rows),
        Err(_) => false,
    }
}

/// Whether a part breaks rule 52 at a place.
fn breaks(alloc: Global, plc: &[u8], place: u32) -> bool {
    match &read(alloc, plc) {
        Err(PartFault::Rule { rule, offset }) => *rule == 52 && *offset == place,
        _ => false,
    }
}

/// A byte, counted from 0, what it is set to, and the place that is named: no unit of a field, a CP that is there
/// already, and one behind the story.
const WRONG: [(usize, u8, u32); 3] = [(20, 0x12, 108), (4, 2, 104), (8, 20, 108)];

/// The part with one byte set.
fn with(at: usize, byte: u8) -> [u8; 22] {
    let mut plc = PLC;
    if at < 22 {
        plc[at] = byte;
    }
    plc
}

/// Whether each wrong part is named, and one that is cut.
fn are_named(alloc: Global) -> bool {
    for (at, byte, place) in WRONG {
        if !breaks(alloc, &with(at, byte), place) {
            return false;
        }
    }
    breaks(alloc, &PLC[..21], 100)
}

#[test]
fn field_characters_are_read(rt: HostRuntime) -> Result<(), Fail> {
    let rows = [(2, 0x13, 33), (5, 0x14, 0xFF), (9, 0x15, 0x80)];
    assert!(rt; has(rt.alloc(), &PLC, &rows) && has(rt.alloc(), &[], &[]));
    assert!(rt; are_named(rt.alloc()));
    Ok(())
}
