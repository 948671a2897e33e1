// Fields that are open behind units, and the hyperlink among them. What is open was worked out by hand from [MS-DOC]
// PlcFld: 0x13 begins a field, 0x14 its result, 0x15 ends it.
use field_links::{OpenField, OpenFieldPlaces};
use std::test::Fail;

/// The type of HYPERLINK.
const LINK: u8 = 0x58;

/// A unit at a place, with its byte where it is a field character. Behind it: whether all results have begun, and where
/// the outermost hyperlink began whose result begins at place 4 or behind it.
struct Step(u16, u16, Option<u8>, bool, Option<u32>);

/// A hyperlink that begins before place 4, one in the result of it that begins behind, a field of another type within, and
/// units that are no field characters.
const STEPS: [Step; 13] = [
    Step(0, 0x13, Some(LINK), false, None),
    Step(1, 0x14, Some(0xFF), true, None),
    Step(2, 0x14, None, true, None),
    Step(3, 0x13, Some(LINK), false, None),
    Step(4, 0x13, Some(33), false, None),
    Step(5, 0x15, Some(0x80), false, None),
    Step(6, 0x14, Some(0xFF), true, Some(3)),
    Step(7, 0x13, Some(33), false, Some(3)),
    Step(8, 0x14, Some(0xFF), true, Some(3)),
    Step(9, 0x15, None, true, Some(3)),
    Step(10, 0x15, Some(0x80), true, Some(3)),
    Step(11, 0x15, Some(0x80), true, None),
    Step(12, 0x15, Some(0x80), true, None),
];

/// Where a field began, where there is one.
fn began(field: Option<OpenField>) -> Option<u32> {
    match field {
        Some(field) => Some(field.began),
        None => None,
    }
}

/// Whether each step is so.
fn are_so(steps: &[Step]) -> bool {
    let mut open = OpenFieldPlaces::new();
    for step in steps {
        open.pass(step.0 as u32, step.1, step.2);
        if open.is_in_results() != step.3 || began(open.hyperlink(4)) != step.4 {
            return false;
        }
    }
    true
}

/// Whether no field is open without a result, where so many began and so many then got a result and ended.
fn have_ended(count: u16, ends: u16) -> bool {
    let mut open = OpenFieldPlaces::new();
    for place in 0..count {
        open.pass(place as u32, 0x13, Some(33));
    }
    for place in 0..ends {
        open.pass(place as u32, 0x14, Some(0xFF));
        open.pass(place as u32, 0x15, Some(0x80));
    }
    open.is_in_results()
}

#[test]
fn open_fields_are_kept(rt: HostRuntime) -> Result<(), Fail> {
    assert!(rt; are_so(&STEPS));
    Ok(())
}

// At most 128 fields are open at once; one more is not counted.
#[test]
fn one_open_field_more_is_not_counted(rt: HostRuntime) -> Result<(), Fail> {
    assert!(rt; have_ended(128, 128) && !have_ended(128, 127));
    assert!(rt; have_ended(129, 128) && !have_ended(129, 127));
    Ok(())
}
