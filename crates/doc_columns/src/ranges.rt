// What the types of numbers say of them. None of these functions does anything when it runs.
ghost use Rattle.std.specs.Prelude.{◌^◌, ◌<◌, All};
ghost use Rattle.run_lists.specs.Spread.{expanded};
ghost use Rattle.doc_columns.specs.Attached.{IsRanged};

use crate::Attached;
use plain_doc::{has_field_byte, has_style_number};
use run_lists::Run;

/// Units have 16 bits.
pub(crate) fn are_words(units: &[u16])
    ensures { All (λ unit. unit < 2 ^ 16) units.now }
{}

/// The numbers of what is beside have their sizes.
pub(crate) fn are_ranged(runs: &[Run<Attached>])
    ensures { All IsRanged (expanded runs.now) }
{
    for run in runs {
        is_ranged(&run.value);
    }
}

/// The numbers of what is attached to a unit have their sizes.
pub(crate) fn is_ranged(attached: &Attached)
    ensures { IsRanged attached.now }
{
    has_style_number(&attached.mark);
    has_field_byte(&attached.fld);
}
