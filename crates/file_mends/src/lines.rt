// The lines of the mends of a file.
ghost use Rattle.std.specs.Prelude.{◌≡◌, ◌++◌, IfOk, OnOk};
ghost use Rattle.std.specs.List.{flat_map};
ghost use Rattle.file_mends.specs.Lines.{file_mend_line, part_line as line_of_part, sector_line as line_of_sector};
ghost use Rattle.file_mends.specs.Lines.{emptied_style_line as line_of_style, cut_styles_line as line_of_styles};
ghost use Rattle.file_mends.specs.Lines.{stops_line as line_of_stops};

use crate::mends::FileMend;
use doc_bits::{Memory, Text};
use fib_versions::part_name;
use std::alloc::Global;

/// Appends the lines of the mends of a file. After want of memory some of them may be there.
pub fn push_file_mends(alloc: Global, text: &mut Text, mends: &[FileMend]) -> Result<(), Memory>
    ensures { OnOk result (text.new ≡ text.old ++ flat_map file_mend_line mends.now) }
{
    for k in 0..mends.len() {
        push_file_mend(alloc, text, &mends[k])?;
    }
    Ok(())
}

/// Appends the line of one.
fn push_file_mend(alloc: Global, text: &mut Text, mend: &FileMend) -> Result<(), Memory>
    ensures { OnOk result (text.new ≡ text.old ++ file_mend_line mend.now) }
{
    let line = mend_line(alloc, mend)?;
    text.push_all(line.as_str())
}

/// The line of a mend.
fn mend_line(alloc: Global, mend: &FileMend) -> Result<Text, Memory>
    ensures { IfOk result (λ line. line ≡ file_mend_line mend.now) }
{
    match mend {
        FileMend::LastSectorFilled(missing) => sector_line(alloc, *missing),
        FileMend::PartEmptied(pair) => part_line(alloc, *pair),
        FileMend::StyleEmptied(istd) => style_line(alloc, *istd),
        FileMend::StylesCut(istd) => styles_line(alloc, *istd),
        FileMend::StopsRead(count) => stops_line(alloc, *count),
    }
}

/// The line of a last sector that was cut.
fn sector_line(alloc: Global, missing: usize) -> Result<Text, Memory>
    ensures { IfOk result (λ line. line ≡ line_of_sector missing) }
{
    let line = format!(in alloc; "sector {missing}: filled\n")?;
    Ok(Text::from_string(line))
}

/// The line of a part that is emptied.
fn part_line(alloc: Global, pair: usize) -> Result<Text, Memory>
    ensures { IfOk result (λ line. line ≡ line_of_part pair) }
{
    let name = part_name(pair);
    let line = format!(in alloc; "part {pair} {name}: emptied\n")?;
    Ok(Text::from_string(line))
}

/// The line of a style that is emptied.
fn style_line(alloc: Global, istd: usize) -> Result<Text, Memory>
    ensures { IfOk result (λ line. line ≡ line_of_style istd) }
{
    let line = format!(in alloc; "style {istd}: emptied\n")?;
    Ok(Text::from_string(line))
}

/// The line of the first style that is gone.
fn styles_line(alloc: Global, istd: usize) -> Result<Text, Memory>
    ensures { IfOk result (λ line. line ≡ line_of_styles istd) }
{
    let line = format!(in alloc; "styles {istd}: cut\n")?;
    Ok(Text::from_string(line))
}

/// The line of changes of tab stops that are read.
fn stops_line(alloc: Global, count: usize) -> Result<Text, Memory>
    ensures { IfOk result (λ line. line ≡ line_of_stops count) }
{
    let line = format!(in alloc; "stops {count}: read\n")?;
    Ok(Text::from_string(line))
}
