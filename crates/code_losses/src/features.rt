// What counts of codes name.
ghost use Rattle.std.specs.Prelude.{◌≡◌, ◌<◌, ◌++◌, slice_index, OnOk};
ghost use Rattle.text_losses.specs.Features.{is_added as is_added_code};
ghost use Rattle.code_losses.specs.Tallies.{HasCodes};
ghost use Rattle.code_losses.specs.Losses.{skipped_of, repeated_of, features_by_code};

use crate::counts::{CODES, Tally};
use doc_bits::Memory;
use sprm_table::{Code, group};
use text_losses::{ListKind, TextFeature};

/// The groups of sections and of tables, and the code of tab stops: what the standard may add of them.
const SECTION: u8 = 4;

const TABLE: u8 = 5;

const TABS: u16 = 0xC60D;

/// Whether the standard may add what is again of a code.
fn is_added(code: Code) -> bool
    ensures { result ≡ is_added_code code.0 }
{
    let group = group(code);
    group == SECTION || group == TABLE || code.0 == TABS
}

/// Names a code that does nothing, where a list has it.
fn push_skipped(
    features: &mut Vec<TextFeature>,
    kind: ListKind,
    code: u16,
    count: u64,
) -> Result<(), Memory>
    ensures { OnOk result (features.new.items ≡ features.old.items ++ skipped_of kind code count) }
{
    if count == 0 || kind.keeps(Code(code)) {
        return Ok(());
    }
    features.push(TextFeature::Skipped { kind, code, count })?;
    Ok(())
}

/// Names a code of which the last one counts, where a list has it again.
fn push_repeated(
    features: &mut Vec<TextFeature>,
    kind: ListKind,
    code: u16,
    count: u64,
) -> Result<(), Memory>
    ensures { OnOk result (features.new.items ≡ features.old.items ++ repeated_of kind code count) }
{
    if count == 0 || !is_added(Code(code)) {
        return Ok(());
    }
    features.push(TextFeature::Repeated { kind, code, count })?;
    Ok(())
}

/// Names the codes that do nothing.
pub(crate) fn push_all_skipped(
    features: &mut Vec<TextFeature>,
    kind: ListKind,
    tally: &Tally,
) -> Result<(), Memory>
    requires { HasCodes tally.now }
    ensures { OnOk result (features.new.items ≡ features.old.items
        ++ features_by_code (λ code. skipped_of kind code (slice_index tally.now.counts.items code))) }
{
    for code in 0..CODES {
        push_skipped(features, kind, code as u16, tally.counts[code])?;
    }
    Ok(())
}

/// Names the codes of which the last one of a list counts.
pub(crate) fn push_all_repeated(
    features: &mut Vec<TextFeature>,
    kind: ListKind,
    tally: &Tally,
) -> Result<(), Memory>
    requires { HasCodes tally.now }
    ensures { OnOk result (features.new.items ≡ features.old.items
        ++ features_by_code (λ code. repeated_of kind code (slice_index tally.now.counts.items code))) }
{
    for code in 0..CODES {
        push_repeated(features, kind, code as u16, tally.counts[code])?;
    }
    Ok(())
}
