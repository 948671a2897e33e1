// The saves of a script. No call takes memory.
ghost use Rattle.std.specs.Prelude.{◌≡◌, true, false};
ghost use Rattle.script_run.specs.Saves.{save_mode, has_mode, save_count};

use edit_ops::{Command, Script};

/// How many saves of each mode a script has.
#[derive(Clone, Copy)]
pub struct SaveCounts {
    pub fast: usize,
    pub full: usize,
}

/// The saves of each mode among the commands.
pub fn count_saves(script: &Script) -> SaveCounts
    ensures fast { result.fast ≡ save_count false script.now }
    ensures full { result.full ≡ save_count true script.now }
{
    SaveCounts {
        fast: count_mode(script, false),
        full: count_mode(script, true),
    }
}

/// The saves of one mode, full or fast.
fn count_mode(script: &Script, full: bool) -> usize
    ensures { result ≡ save_count full script.now }
{
    let mut count = 0;
    for i in 0..script.len() {
        count += saves_in(script.get(i), full) as usize;
    }
    count
}

/// Whether the command saves in this mode.
fn saves_in(command: &Command, full: bool) -> bool
    ensures { result ≡ has_mode full (save_mode command.now) }
{
    match command {
        Command::Save(mode) => *mode == full,
        _ => false,
    }
}

/// The mode of a save, true for a full one; an edit has none.
pub(crate) fn mode_of(command: &Command) -> Option<bool>
    ensures { result ≡ save_mode command.now }
{
    match command {
        Command::Save(full) => Some(*full),
        _ => None,
    }
}
