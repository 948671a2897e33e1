// What of the lists of a file is left out.
ghost use Rattle.std.specs.Prelude.{◌≡◌, ◌+◌, ◌++◌, map, slice_range, IfOk, OnOk};
ghost use Rattle.doc_bits.specs.Rules.{Hold};
ghost use Rattle.fib_versions.specs.VersionRules.{version_rules};
ghost use Rattle.text_losses.specs.Lines.{feature_line as line_of_feature};
ghost use Rattle.doc_fit.specs.Losses.{AreTextLosses};

use code_losses::code_losses;
use doc_bits::{Memory, Text};
use doc_lift::{PLCF_BTE_CHPX, PLCF_BTE_PAPX};
use fib_versions::AnyFib;
use loss_report::LossLines;
use std::alloc::Global;
use text_losses::{TextFeature, push_feature};

const CLX: u16 = 33;

/// The codes of the lists of a file that are left out, by `WordDocument` and the table stream.
pub(crate) fn text_losses_of(
    alloc: Global,
    wd: &[u8],
    fib: &AnyFib<'_>,
    table: &[u8],
) -> Result<Vec<TextFeature>, Memory>
    requires same { fib.now ≡ wd.now }
    requires version { Hold (version_rules wd.now) }
    ensures { IfOk result (λ texts. AreTextLosses wd.now table.now texts.items) }
{
    let characters = part_of(table, fib.pair(PLCF_BTE_CHPX));
    let paragraphs = part_of(table, fib.pair(PLCF_BTE_PAPX));
    let clx = part_of(table, fib.pair(CLX));
    let found = code_losses(alloc, wd, characters, paragraphs, clx)?;
    Ok(found)
}

/// The bytes of a part of the table stream, as far as they are within it.
fn part_of(table: &[u8], pair: (u32, u32)) -> &[u8]
    ensures { result.now ≡ slice_range table.now pair.0 (pair.0 + pair.1) }
{
    let from = pair.0 as usize;
    let to = from + pair.1 as usize;
    let end = to.min(table.len());
    &table[from.min(end)..end]
}

/// Puts the lines of features behind others.
pub(crate) fn add_features(
    alloc: Global,
    lines: &mut LossLines,
    features: &[TextFeature],
) -> Result<(), Memory>
    ensures { OnOk result (lines.new ≡ lines.old ++ map line_of_feature features.now) }
{
    for i in 0..features.len() {
        let line = line_of(alloc, &features[i])?;
        lines.add(line)?;
    }
    Ok(())
}

/// The line of a feature.
fn line_of(alloc: Global, feature: &TextFeature) -> Result<Text, Memory>
    ensures { IfOk result (λ line. line ≡ line_of_feature feature.now) }
{
    let mut line = Text::new(alloc);
    push_feature(alloc, &mut line, feature)?;
    Ok(line)
}
