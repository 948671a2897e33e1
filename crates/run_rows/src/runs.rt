// Commands run over a session on the blank document with guards, and the commands of the generator. What guards allow
// was worked out by counting the items that are put; the generator's numbers by a program apart from this one.
ghost use Rattle.std.specs.Prelude.{◌≤◌, length, IfOk};
ghost use Rattle.edit_script.specs.Scripts.{EndsWithSave, most_commands};
ghost use Rattle.script_run.specs.Ends.{IsUnchanged};

use crate::blank_file::blank_file;
use edit_generator::{generated_command, generated_count};
use edit_guards::{Guard, UnitQuota};
use edit_script::{Command, Script, read_script};
use fast_save::Session;
use full_save::SaveFault;
use script_run::{RunFault, Stop, run_script};
use std::alloc::Global;
use std::test::Fail;

/// Three insertions, of two letters and of one each.
const LETTERS: &str = "[{\"do\":\"insert\",\"story\":\"main\",\"at\":0,\"text\":\"ab\"},\
    {\"do\":\"insert\",\"story\":\"main\",\"at\":0,\"text\":\"c\"},\
    {\"do\":\"insert\",\"story\":\"main\",\"at\":0,\"text\":\"d\"},\
    {\"do\":\"save\",\"mode\":\"full\"}]";

/// Whether the script is run to its end.
fn runs(alloc: Global, json: &str, guards: &mut [Box<dyn Guard>]) -> Result<bool, RunFault> {
    match read_script(alloc, json.as_bytes()) {
        Ok(script) => ends(alloc, &script, guards),
        Err(_) => Ok(false),
    }
}

/// Whether the commands of a script are run to their end.
fn ends(alloc: Global, script: &Script, guards: &mut [Box<dyn Guard>]) -> Result<bool, RunFault>
    requires few { length script.now ≤ most_commands }
    requires saved { EndsWithSave script.now }
{
    match blank_session(alloc) {
        Ok(session) => {
            run_script(alloc, session, script, guards)?;
            Ok(true)
        }
        Err(_) => Ok(false),
    }
}

/// A session on the blank document, unless memory is refused.
fn blank_session(alloc: Global) -> Result<Session, SaveFault>
    ensures { IfOk result IsUnchanged }
{
    let file = blank_file(alloc)?;
    match Session::start(alloc, file.as_slice()) {
        Ok(session) => Ok(session),
        Err(_) => Err(SaveFault::Memory),
    }
}

/// The end of a run that a guard stops.
fn guarded(index: usize, guard: usize) -> Result<bool, RunFault> {
    Err(RunFault::Stopped {
        index,
        stop: Stop::Guarded { guard },
    })
}

// A quota of 8 has 4 items left behind the first run and none behind the second one.
#[test]
fn guards_are_told_once_of_each_edit(rt: HostRuntime) -> Result<(), Fail> {
    let alloc = rt.alloc();
    let mut guards: Vec<Box<dyn Guard>> = Vec::new(alloc);
    guards.push(Box::new(alloc, UnitQuota::new(8))?)?;
    assert!(rt; runs(alloc, LETTERS, &mut guards) == Ok(true));
    assert!(rt; runs(alloc, LETTERS, &mut guards) == Ok(true));
    assert!(rt; runs(alloc, LETTERS, &mut guards) == guarded(0, 0));
    Ok(())
}

/// A command of the generator: the number of its kind, its place, and the number of its units, its end or its style; of
/// a save 15, and 1 where it is full.
fn shape(command: &Command) -> (u8, u32, usize) {
    match command {
        Command::Insert(_, at, text) => (1, *at, text.as_slice().len()),
        Command::Char(_, from, to, _) => (3, *from, *to as usize),
        Command::Style(_, at, istd) => (6, *at, *istd as usize),
        Command::Split(_, at) => (9, *at, 0),
        Command::Save(full) => (15, *full as u32, 0),
        _ => (0, 0, 0),
    }
}

/// Whether the command of a number from seed 52, on a main text of 40 items, has this shape.
fn is_made(alloc: Global, index: usize, quick_saves: u8, expected: (u8, u32, usize)) -> bool {
    if index >= generated_count(52) {
        return false;
    }
    match generated_command(alloc, 52, index, 40, quick_saves) {
        Ok(command) => shape(&command) == expected,
        Err(_) => false,
    }
}

#[test]
fn the_generator_makes_its_commands(rt: HostRuntime) -> Result<(), Fail> {
    let rows = [
        (0, 0, (1, 37, 19)),
        (1, 0, (1, 34, 19)),
        (2, 0, (9, 3, 0)),
        (3, 0, (3, 24, 40)),
        (4, 0, (6, 1, 1)),
        (50, 0, (15, 0, 0)),
        (51, 1, (1, 3, 20)),
        (53, 1, (15, 0, 0)),
        (53, 7, (15, 1, 0)),
    ];
    assert!(rt; generated_count(52) == 54 && generated_count(0) == 0);
    for (index, quick_saves, expected) in rows {
        assert!(rt;
            is_made(rt.alloc(), index, quick_saves, expected),
            "{index}"
        );
    }
    Ok(())
}
