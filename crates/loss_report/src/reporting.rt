// What is left out, feature by feature.
ghost use Rattle.std.specs.Prelude.{◌≡◌, ◌≤◌, ◌<◌, [], ◌∷◌, ◌++◌, map, slice_range, IfOk, OnOk};
ghost use Rattle.fib_versions.specs.Versions.{fib_pair_count};
ghost use Rattle.loss_report.specs.Features.{StreamOf, stream_features, storage_features, part_feature};
ghost use Rattle.loss_report.specs.Features.{part_features, story_feature, story_features, auto_text_feature};
ghost use Rattle.loss_report.specs.Losses.{losses};
ghost use Rattle.loss_report.specs.Lines.{feature_line, loss_lines};

use crate::LossLines;
use crate::feature_lines::{auto_text_line, part_line, storage_line, story_line, stream_line};
use cfb_streams::{Container, OuterContainer, equal_names, table_name};
use doc_bits::Memory;
use fib_versions::{AnyFib, Further, is_part_pair};
use std::alloc::Global;

/// Names what is left out of a file: `units` are those of its text, by CP.
pub fn report(
    alloc: Global,
    outer: &OuterContainer,
    fib: &AnyFib<'_>,
    units: &[u16],
) -> Result<LossLines, Memory>
    ensures { IfOk result (λ lines.
        lines ≡ map feature_line (losses (record { outer = outer.now; wd = fib.now; units = units.now }))) }
{
    let mut lines = LossLines::new(alloc);
    add_streams(alloc, &mut lines, outer.container(), fib)?;
    add_storages(alloc, &mut lines, outer, fib)?;
    add_parts(alloc, &mut lines, fib)?;
    add_stories(alloc, &mut lines, fib, units)?;
    add_auto_text(alloc, &mut lines, fib)?;
    Ok(lines)
}

/// Names each stream that is not read or carried.
fn add_streams(
    alloc: Global,
    lines: &mut LossLines,
    container: &Container,
    fib: &AnyFib<'_>,
) -> Result<(), Memory>
    ensures { OnOk result
        (lines.new ≡ lines.old ++ loss_lines fib.now (stream_features container.now.streams)) }
{
    for i in 0..container.count() {
        add_stream(alloc, lines, container.name(i), fib)?;
    }
    Ok(())
}

/// Names a stream, where it is the table stream that is not used.
fn add_stream(
    alloc: Global,
    lines: &mut LossLines,
    name: &[u16],
    fib: &AnyFib<'_>,
) -> Result<(), Memory>
    ensures { OnOk result (lines.new ≡ lines.old ++ loss_lines fib.now (StreamOf name.now ∷ [])) }
{
    let unused = table_name(1 - fib.which_table());
    if !equal_names(name, unused) {
        return Ok(());
    }
    let line = stream_line(alloc, name)?;
    lines.add(line)?;
    Ok(())
}

/// Names each storage.
fn add_storages(
    alloc: Global,
    lines: &mut LossLines,
    outer: &OuterContainer,
    fib: &AnyFib<'_>,
) -> Result<(), Memory>
    ensures { OnOk result
        (lines.new ≡ lines.old ++ loss_lines fib.now (storage_features outer.now.storages)) }
{
    for i in 0..outer.storage_count() {
        let line = storage_line(alloc, outer.storage(i))?;
        lines.add(line)?;
    }
    Ok(())
}

/// Names each part that is not read or carried.
fn add_parts(alloc: Global, lines: &mut LossLines, fib: &AnyFib<'_>) -> Result<(), Memory>
    ensures { OnOk result (lines.new ≡ lines.old ++ loss_lines fib.now (part_features fib.now)) }
{
    for n in 0..fib.pair_count() {
        add_part(alloc, lines, fib, n)?;
    }
    Ok(())
}

/// Names a part, where it has bytes and is not read or carried.
fn add_part(alloc: Global, lines: &mut LossLines, fib: &AnyFib<'_>, n: u16) -> Result<(), Memory>
    requires { n < fib_pair_count fib.now }
    ensures { OnOk result (lines.new ≡ lines.old ++ loss_lines fib.now (part_feature fib.now n)) }
{
    let (_, len) = fib.pair(n);
    if len == 0 {
        return Ok(());
    }
    if is_part_pair(n as usize) {
        return Ok(());
    }
    let line = part_line(alloc, n as usize, len)?;
    lines.add(line)?;
    Ok(())
}

/// Names each story behind the header texts.
fn add_stories(
    alloc: Global,
    lines: &mut LossLines,
    fib: &AnyFib<'_>,
    units: &[u16],
) -> Result<(), Memory>
    ensures { OnOk result
        (lines.new ≡ lines.old ++ loss_lines fib.now (story_features fib.now units.now)) }
{
    add_story(alloc, lines, fib, units, Further::Comments)?;
    add_story(alloc, lines, fib, units, Further::Endnotes)?;
    add_story(alloc, lines, fib, units, Further::TextBoxes)?;
    add_story(alloc, lines, fib, units, Further::HeaderTextBoxes)?;
    Ok(())
}

/// Names a story, where it has units.
fn add_story(
    alloc: Global,
    lines: &mut LossLines,
    fib: &AnyFib<'_>,
    units: &[u16],
    story: Further,
) -> Result<(), Memory>
    ensures { OnOk result
        (lines.new ≡ lines.old ++ loss_lines fib.now (story_feature fib.now units.now story)) }
{
    let len = fib.further(story) as usize;
    if len == 0 {
        return Ok(());
    }
    let from = fib.further_start(story) as usize;
    let line = story_line(alloc, story, units_between(units, from, from + len))?;
    lines.add(line)?;
    Ok(())
}

/// The units from one CP to before another, as far as there are so many.
fn units_between(units: &[u16], from: usize, to: usize) -> &[u16]
    requires { from ≤ to }
    ensures { result.now ≡ slice_range units.now from to }
{
    let end = to.min(units.len());
    &units[from.min(end)..end]
}

/// Names the AutoText, where there is some.
fn add_auto_text(alloc: Global, lines: &mut LossLines, fib: &AnyFib<'_>) -> Result<(), Memory>
    ensures { OnOk result (lines.new ≡ lines.old ++ loss_lines fib.now (auto_text_feature fib.now)) }
{
    let page = fib.next_page();
    if page == 0 {
        return Ok(());
    }
    let line = auto_text_line(alloc, page)?;
    lines.add(line)?;
    Ok(())
}
