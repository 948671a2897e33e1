// Guards in boxes. What they allow was worked out by counting the items that are put.
ghost use Rattle.std.specs.Prelude.{[]};
ghost use Rattle.edit_guards.specs.Policies.{lock_of};

use edit_guards::{Facts, Guard, StyleLock, UnitQuota, first_refuser, note_all};
use std::cell::Cell;
use std::rc::Rc;
use std::test::Fail;

/// A guard of a kind of its own, which allows each edit.
#[derive(Drop)]
struct Lenient;

impl Guard for Lenient {
    ghost policy = { λ _. lock_of [] };

    fn may(&self, _facts: Facts) -> bool {
        true
    }

    fn note(&mut self, _facts: Facts) {}
}

/// A guard that allows each edit, and counts how often it is told of one.
#[derive(Drop)]
struct Counting {
    told: Rc<Cell<u32>>,
}

impl Guard for Counting {
    ghost policy = { λ _. lock_of [] };

    fn may(&self, _facts: Facts) -> bool {
        true
    }

    fn note(&mut self, _facts: Facts) {
        self.told.set(self.told.get().saturating_add(1));
    }
}

/// What an insertion of so many items into a paragraph of this style does.
fn insertion(units: u32, style: u16) -> Facts {
    Facts {
        kind: 1,
        units_in: units,
        units_out: 0,
        style,
    }
}

/// The first guard that refuses the edit. Where there is none, each is told of it.
fn asked(guards: &mut [Box<dyn Guard>], facts: Facts) -> Option<usize> {
    let refuser = first_refuser(guards, facts);
    if refuser.is_none() {
        note_all(guards, facts);
    }
    refuser
}

/// The items and the style of an edit, and who refuses it: 5 and 3 items are left at first, and 2 and 0 behind "ab" and
/// "c".
const EDITS: [(u32, u16, Option<usize>); 8] = [
    (2, 0, None),
    (0, 7, Some(3)),
    (1, 2, None),
    (1, 0, Some(1)),
    (3, 1, Some(0)),
    (0, 1, Some(3)),
    (0, 0, None),
    (2, 0, Some(1)),
];

/// Whether each edit is refused by the guard that is said, or by none.
fn are_refused(guards: &mut [Box<dyn Guard>], rows: &[(u32, u16, Option<usize>)]) -> bool {
    for row in rows {
        if asked(guards, insertion(row.0, row.1)) != row.2 {
            return false;
        }
    }
    true
}

#[test]
fn the_first_refuser_is_named(rt: HostRuntime) -> Result<(), Fail> {
    let alloc = rt.alloc();
    let mut guards: Vec<Box<dyn Guard>> = Vec::new(alloc);
    assert!(rt; asked(&mut guards, insertion(9, 0)) == None, "no guard");
    guards.push(Box::new(alloc, UnitQuota::new(5))?)?;
    guards.push(Box::new(alloc, UnitQuota::new(3))?)?;
    guards.push(Box::new(alloc, Lenient)?)?;
    guards.push(Box::new(alloc, StyleLock::new(alloc, &[1, 7])?)?)?;
    assert!(rt; are_refused(&mut guards, &EDITS));
    Ok(())
}

/// A guard, the items and the style of an edit, and whether it allows that.
struct Left(usize, u32, u16, bool);

const LEFT: [Left; 5] = [
    Left(0, u32::MAX, 0, true),
    Left(1, 0, 0, true),
    Left(1, 1, 1, false),
    Left(2, u32::MAX, 1, true),
    Left(2, 0, 0, false),
];

/// Whether a guard allows an edit, where that is said, and else does not.
fn is_left(guards: &[Box<dyn Guard>], left: &Left) -> bool {
    match guards.get(left.0) {
        Some(guard) => guard.may(insertion(left.1, left.2)) == left.3,
        None => false,
    }
}

/// Whether each row is as a guard allows it.
fn are_left(guards: &[Box<dyn Guard>], rows: &[Left]) -> bool {
    for left in rows {
        if !is_left(guards, left) {
            return false;
        }
    }
    true
}

// The lock is on the style of a header text that is empty.
#[test]
fn noted_guards_have_less_left(rt: HostRuntime) -> Result<(), Fail> {
    let alloc = rt.alloc();
    let mut guards: Vec<Box<dyn Guard>> = Vec::new(alloc);
    guards.push(Box::new(alloc, UnitQuota::new(u64::MAX))?)?;
    guards.push(Box::new(alloc, UnitQuota::new(10))?)?;
    guards.push(Box::new(alloc, StyleLock::new(alloc, &[0])?)?)?;
    assert!(rt; asked(&mut guards, insertion(4, 1)) == None);
    assert!(rt; asked(&mut guards, insertion(6, 2)) == None);
    assert!(rt; are_left(&guards, &LEFT));
    Ok(())
}

// The edit adds nothing, so each policy stays, and no clause says that guards are told of it.
#[test]
fn guards_are_told_once_of_an_edit_that_adds_nothing(rt: HostRuntime) -> Result<(), Fail> {
    let alloc = rt.alloc();
    let told = Rc::new(alloc, Cell::new(0))?;
    let mut guards: Vec<Box<dyn Guard>> = Vec::new(alloc);
    let counting = Counting {
        told: told.clone()?,
    };
    guards.push(Box::new(alloc, counting)?)?;
    assert!(rt; asked(&mut guards, insertion(0, 0)) == None);
    assert!(rt; told.get() == 1);
    Ok(())
}
