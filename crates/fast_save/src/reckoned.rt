// What is reckoned for a command, whatever the document is.
ghost use Rattle.std.specs.Prelude.{◌≡◌};
ghost use Rattle.edit_ops.specs.Runs.{reckoned_runs as runs_reckoned, most_runs_of_section};
ghost use Rattle.edit_ops.specs.Codes.{HasValidCodes};
ghost use Rattle.fast_save.specs.Ledgers.{is_formatting as formats, modifier_growth as growth};
ghost use Rattle.fast_save.specs.Ledgers.{sections_set as settings_put};

use edit_ops::Command;

/// Whether a command composes the modifiers of pieces with another.
pub(crate) fn is_formatting(command: &Command) -> bool
    ensures { result ≡ formats command.now }
{
    match command {
        Command::Char(_, _, _, _) => true,
        Command::Plain(_, _, _) => true,
        Command::Para(_, _, _) => true,
        Command::Style(_, _, _) => true,
        Command::Insert(_, _, _) => false,
        Command::Erase(_, _, _) => false,
        Command::Field(_, _, _, _, _) => false,
        Command::Note(_, _) => false,
        Command::Split(_, _) => false,
        Command::Merge(_, _) => false,
        Command::Sect(_, _, _) => false,
        Command::Row(_, _, _, _) => false,
        Command::StyleChar(_, _) => false,
        Command::StylePara(_, _) => false,
        Command::Bookmark(_, _, _) => false,
        Command::Unmark(_) => false,
        Command::Save(_) => false,
    }
}

/// The bytes by which a modifier grows that a command composes.
pub(crate) fn modifier_growth(command: &Command) -> u64
    requires { HasValidCodes command.now }
    ensures { result ≡ growth command.now }
{
    match command {
        Command::Char(_, _, _, set) => set.printed_len(),
        Command::Plain(_, _, _) => 3,
        Command::Para(_, _, set) => set.printed_len(),
        Command::Style(_, _, _) => 4,
        Command::Insert(_, _, _) => 0,
        Command::Erase(_, _, _) => 0,
        Command::Field(_, _, _, _, _) => 0,
        Command::Note(_, _) => 0,
        Command::Split(_, _) => 0,
        Command::Merge(_, _) => 0,
        Command::Sect(_, _, _) => 0,
        Command::Row(_, _, _, _) => 0,
        Command::StyleChar(_, _) => 0,
        Command::StylePara(_, _) => 0,
        Command::Bookmark(_, _, _) => 0,
        Command::Unmark(_) => 0,
        Command::Save(_) => 0,
    }
}

/// The Sepxes that a command may have written.
pub(crate) fn sections_set(command: &Command) -> u64
    ensures { result ≡ settings_put command.now }
{
    match command {
        Command::Sect(_, _, _) => 1,
        Command::Insert(_, _, _) => 0,
        Command::Erase(_, _, _) => 0,
        Command::Char(_, _, _, _) => 0,
        Command::Plain(_, _, _) => 0,
        Command::Para(_, _, _) => 0,
        Command::Style(_, _, _) => 0,
        Command::Field(_, _, _, _, _) => 0,
        Command::Note(_, _) => 0,
        Command::Split(_, _) => 0,
        Command::Merge(_, _) => 0,
        Command::Row(_, _, _, _) => 0,
        Command::StyleChar(_, _) => 0,
        Command::StylePara(_, _) => 0,
        Command::Bookmark(_, _, _) => 0,
        Command::Unmark(_) => 0,
        Command::Save(_) => 0,
    }
}

/// The runs of equal properties that are reckoned for what a command puts.
pub(crate) fn most_runs(command: &Command) -> u64
    requires { HasValidCodes command.now }
    ensures { result ≡ runs_reckoned command.now }
{
    match command {
        Command::Insert(_, _, _) => 3,
        Command::Field(_, _, _, _, _) => 5,
        Command::Note(_, _) => 5,
        Command::Split(_, _) => 2,
        Command::Sect(_, new, _) => most_runs_of(*new),
        Command::Row(_, _, _, cells) => cells.len() as u64 + 2,
        Command::Erase(_, _, _) => 0,
        Command::Char(_, _, _, _) => 0,
        Command::Plain(_, _, _) => 0,
        Command::Para(_, _, _) => 0,
        Command::Style(_, _, _) => 0,
        Command::Merge(_, _) => 0,
        Command::StyleChar(_, _) => 0,
        Command::StylePara(_, _) => 0,
        Command::Bookmark(_, _, _) => 0,
        Command::Unmark(_) => 0,
        Command::Save(_) => 0,
    }
}

/// The runs that are reckoned for a new section, or for the properties of one that is there.
fn most_runs_of(new: bool) -> u64
    ensures { result ≡ most_runs_of_section new }
{
    if new { 2 } else { 0 }
}
