// The commands of the generator.
ghost use Rattle.std.specs.Prelude.{◌≡◌, ◌+◌, ◌<◌, min, IfOk};
ghost use Rattle.doc_bits.specs.declared.places.Story.TheVariants.{Main};
ghost use Rattle.edit_script.specs.declared.commands.Command.TheVariants.{Insert, Char};
ghost use Rattle.doc_model.specs.Blank.{one_property};
ghost use Rattle.edit_generator.specs.Generated.{next_number as next_of, edit_number as number_of};
ghost use Rattle.edit_generator.specs.Generated.{line_text as line_of};
ghost use Rattle.edit_generator.specs.Generated.{generated_edit as edit_made, generated_count as count_of};
ghost use Rattle.edit_generator.specs.Generated.{is_generated_save as saves_at, generated_command as command_of};

use doc_bits::{Memory, Story, Units};
use edit_ops::Command;
use prop_map::PropMap;
use sprm_table::SPRM_C_F_BOLD;
use std::alloc::Global;

/// The edits before a save.
const EDITS_A_SAVE: usize = 50;

/// The fast saves before a full one.
const FAST_A_FULL: u8 = 7;

/// The saves up to a full one, and that one.
pub const SAVES_IN_TURN: usize = FAST_A_FULL as usize + 1;

/// The most items that are set bold at once.
const MAX_BOLD: u32 = 20;

/// The number of commands from a seed: as many edits as it says, and a save after each fiftieth and after the last.
pub fn generated_count(seed: u32) -> usize
    ensures { result ≡ count_of seed }
{
    let edits = seed as usize;
    edits + (edits + EDITS_A_SAVE - 1) / EDITS_A_SAVE
}

/// The command of this number from a seed, on a main text of so many items, where the file counts so many fast saves in
/// a row.
pub fn generated_command(
    alloc: Global,
    seed: u32,
    index: usize,
    main_len: u32,
    quick_saves: u8,
) -> Result<Command, Memory>
    requires within { index < count_of seed }
    requires items { 0 < main_len }
    ensures { IfOk result (λ command. command ≡ command_of seed index main_len quick_saves) }
{
    if is_save(seed, index) {
        return Ok(Command::Save(quick_saves == FAST_A_FULL));
    }
    let edit = index - index / (EDITS_A_SAVE + 1) + 1;
    generated_edit(alloc, seed, edit, main_len)
}

/// Whether the command of this number is a save.
fn is_save(seed: u32, index: usize) -> bool
    requires { index < count_of seed }
    ensures { result ≡ saves_at seed index }
{
    index % (EDITS_A_SAVE + 1) == EDITS_A_SAVE || index + 1 == generated_count(seed)
}

/// The edit of this count, from 1.
fn generated_edit(alloc: Global, seed: u32, edit: usize, main_len: u32) -> Result<Command, Memory>
    requires { 0 < main_len }
    ensures { IfOk result (λ command. command ≡ edit_made seed edit main_len) }
{
    let number = edit_number(seed, edit);
    let at = number % main_len;
    match edit % 5 {
        0 => Ok(Command::Style(Story::Main, at, (number / 65_536 % 2) as u16)),
        1 => insertion(alloc, edit, at),
        2 => insertion(alloc, edit, at),
        3 => Ok(Command::Split(Story::Main, at)),
        _ => bold(alloc, at, main_len),
    }
}

/// Inserts a line of text.
fn insertion(alloc: Global, edit: usize, at: u32) -> Result<Command, Memory>
    ensures { IfOk result (λ command. command ≡ Insert Main at (line_of edit)) }
{
    let line = format!(in alloc; "line {edit} of the text ")?;
    let units = units_of(alloc, line.as_bytes())?;
    Ok(Command::Insert(Story::Main, at, units))
}

/// Sets items bold, from a place on.
fn bold(alloc: Global, at: u32, main_len: u32) -> Result<Command, Memory>
    requires { at < main_len }
    ensures { IfOk result (λ command. command ≡ Char Main at (min (at + 20) main_len) (one_property 0x0835 1)) }
{
    let mut set = PropMap::new(alloc);
    set.set(SPRM_C_F_BOLD, &[1])?;
    let to = at.saturating_add(MAX_BOLD).min(main_len);
    Ok(Command::Char(Story::Main, at, to, set))
}

/// The number of an edit.
#[tactic(auto, using(crate::proofs::NumberLemmas::number_first, crate::proofs::NumberLemmas::number_next))]
fn edit_number(seed: u32, edit: usize) -> u32
    ensures { result ≡ number_of seed edit }
{
    let mut number = seed;
    for _i in 0..edit {
        number = next_number(number);
    }
    number
}

/// The number behind another one.
fn next_number(number: u32) -> u32
    ensures { result ≡ next_of number }
{
    ((1_103_515_245 * u64::from(number) + 12_345) % 2_147_483_648) as u32
}

/// The units of a text in ASCII.
fn units_of(alloc: Global, text: &[u8]) -> Result<Units, Memory>
    ensures { IfOk result (λ units. units ≡ text.now) }
{
    let mut units = Units::new(alloc);
    for byte in text {
        units.push_all(&[u16::from(*byte)])?;
    }
    Ok(units)
}
