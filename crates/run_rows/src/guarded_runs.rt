// Scripts that the program runs over the blank document under guards. Who refuses which edit was worked out by counting
// the items that the edits put.
use crate::blank_file::blank_file;
use crate::lenient::Lenient;
use doc_outer::{MemShelf, MemSink, read_whole};
use doc_run::docbin_run;
use edit_guards::{Guard, StyleLock, UnitQuota};
use std::alloc::Global;
use std::test::Fail;

/// Three insertions: of two letters, of one and of one.
const FOUR_LETTERS: &str = r#"[{"do":"insert","story":"main","at":0,"text":"ab"},
    {"do":"insert","story":"main","at":0,"text":"c"},{"do":"insert","story":"main","at":0,"text":"d"},
    {"do":"save","mode":"full"}]"#;

/// Four letters at once.
const ALL_AT_ONCE: &str =
    r#"[{"do":"insert","story":"main","at":0,"text":"abcd"},{"do":"save","mode":"full"}]"#;

/// A style is given to the paragraph before its mark is changed.
const STYLED: &str = r#"[{"do":"insert","story":"main","at":0,"text":"ab"},
    {"do":"style","story":"main","at":0,"istd":1},{"do":"para","story":"main","at":0,"set":{"2405":"01"}},
    {"do":"save","mode":"full"}]"#;

/// A style is changed.
const STYLE_CHANGED: &str =
    r#"[{"do":"stylechar","istd":1,"set":{"0836":"01"}},{"do":"save","mode":"full"}]"#;

/// Nothing is added.
const NOTHING_ADDED: &str = r#"[{"do":"char","story":"main","from":0,"to":1,"set":{"0836":"01"}},
    {"do":"save","mode":"full"}]"#;

/// A header text, which was empty.
const HEADER: &str =
    r#"[{"do":"insert","story":"head:7","at":0,"text":"Top"},{"do":"save","mode":"full"}]"#;

/// Four letters, saved fast.
const SAVED_FAST: &str =
    r#"[{"do":"insert","story":"main","at":0,"text":"abcd"},{"do":"save","mode":"fast"}]"#;

/// A place that is not there.
const NOWHERE: &str =
    r#"[{"do":"insert","story":"main","at":1,"text":"x"},{"do":"save","mode":"full"}]"#;

/// The words of a run.
fn words(alloc: Global) -> Result<Vec<String>, Fail> {
    let mut words = Vec::new(alloc);
    for word in ["edit", "f.doc", "s.json", "o"] {
        words.push(String::from_str(alloc, word)?)?;
    }
    Ok(words)
}

/// A shelf with the file and the script.
fn shelf_of(alloc: Global, script: &str) -> Result<MemShelf, Fail> {
    let file = blank_file(alloc)?;
    let mut shelf = MemShelf::new(alloc);
    shelf.give("f.doc", file.as_slice())?;
    shelf.give("s.json", script.as_bytes())?;
    Ok(shelf)
}

/// Whether the script ends with this status and this line under the guards, and puts bytes exactly at status 0.
fn ends(
    alloc: Global,
    script: &str,
    guards: Vec<Box<dyn Guard>>,
    status: u8,
    line: &str,
) -> Result<bool, Fail> {
    let mut shelf = shelf_of(alloc, script)?;
    let mut sink = MemSink::new(alloc, 256)?;
    let words = words(alloc)?;
    let answered = docbin_run(alloc, &words, &mut shelf, &mut sink, guards);
    let put = read_whole(alloc, &mut shelf, "o").is_ok();
    Ok(answered == status && sink.written() == line.as_bytes() && put == (status == 0))
}

#[test]
fn the_guard_that_refuses_is_named(rt: HostRuntime) -> Result<(), Fail> {
    let alloc = rt.alloc();
    let mut guards: Vec<Box<dyn Guard>> = Vec::new(alloc);
    guards.push(Box::new(alloc, UnitQuota::new(5))?)?;
    guards.push(Box::new(alloc, UnitQuota::new(3))?)?;
    guards.push(Box::new(alloc, Lenient)?)?;
    assert!(rt; ends(alloc, FOUR_LETTERS, guards, 10, "edit 2: guard 1\n")?);
    Ok(())
}

#[test]
fn a_quota_is_asked_at_each_edit(rt: HostRuntime) -> Result<(), Fail> {
    let alloc = rt.alloc();
    // The items of a quota, the script, and how it ends.
    let rows = [
        (3, ALL_AT_ONCE, 10, "edit 0: guard 0\n"),
        (3, FOUR_LETTERS, 10, "edit 2: guard 0\n"),
        (4, FOUR_LETTERS, 0, "edit: 4 commands, fast 0, full 1\n"),
        (3, SAVED_FAST, 10, "edit 0: guard 0\n"),
        (4, SAVED_FAST, 0, "edit: 2 commands, fast 1, full 0\n"),
        (0, NOTHING_ADDED, 0, "edit: 2 commands, fast 0, full 1\n"),
        (0, NOWHERE, 8, "edit 0: range\n"),
    ];
    for (units, script, status, line) in rows {
        let mut guards: Vec<Box<dyn Guard>> = Vec::new(alloc);
        guards.push(Box::new(alloc, UnitQuota::new(units))?)?;
        assert!(rt; ends(alloc, script, guards, status, line)?, "{line}");
    }
    Ok(())
}

#[test]
fn a_lock_is_on_the_style_that_an_edit_concerns(rt: HostRuntime) -> Result<(), Fail> {
    let alloc = rt.alloc();
    // The style that is locked, the script, and how it ends.
    let rows = [
        (1, STYLE_CHANGED, 10, "edit 0: guard 0\n"),
        (2, STYLE_CHANGED, 0, "edit: 2 commands, fast 0, full 1\n"),
        (0, HEADER, 10, "edit 0: guard 0\n"),
    ];
    for (style, script, status, line) in rows {
        let mut guards: Vec<Box<dyn Guard>> = Vec::new(alloc);
        guards.push(Box::new(alloc, StyleLock::new(alloc, &[style])?)?)?;
        assert!(rt; ends(alloc, script, guards, status, line)?, "{line}");
    }
    Ok(())
}

#[test]
fn of_two_guards_the_first_that_refuses_is_named(rt: HostRuntime) -> Result<(), Fail> {
    let alloc = rt.alloc();
    let mut guards: Vec<Box<dyn Guard>> = Vec::new(alloc);
    guards.push(Box::new(alloc, UnitQuota::new(10))?)?;
    guards.push(Box::new(alloc, StyleLock::new(alloc, &[1])?)?)?;
    assert!(rt;
        ends(alloc, STYLED, guards, 10, "edit 2: guard 1\n")?,
        "the style as it is then"
    );
    let mut both: Vec<Box<dyn Guard>> = Vec::new(alloc);
    both.push(Box::new(alloc, StyleLock::new(alloc, &[0])?)?)?;
    both.push(Box::new(alloc, UnitQuota::new(3))?)?;
    assert!(rt;
        ends(alloc, ALL_AT_ONCE, both, 10, "edit 0: guard 0\n")?,
        "both refuse"
    );
    Ok(())
}
