// The codes of the pages of a file that are left out.
ghost use Rattle.std.specs.Prelude.{◌≡◌, ◌++◌, List, IfOk, OnOk};
ghost use Rattle.sprm_table.specs.Sprm.{Prl};
ghost use Rattle.text_losses.specs.declared.features.ListKind.TheVariants.{Prc};
ghost use Rattle.code_losses.specs.Pages.{AreListsOfPages};
ghost use Rattle.code_losses.specs.Prcs.{AreListsOfPrcs};
ghost use Rattle.code_losses.specs.Losses.{AreCodeLosses, codes_of, list_kind as kind_of_pages};

use crate::features::{push_all_repeated, push_all_skipped};
use crate::pages::count_pages;
use crate::prcs::count_prcs;
use doc_bits::Memory;
use fkp_pages::PageKind;
use std::alloc::Global;
use text_losses::{ListKind, TextFeature};

/// Names the codes of lists that are left out, and those of which the last one of a list counts. The lists are those of
/// the pages of `WordDocument` that the bin tables of characters and of paragraphs name, and of the Prcs of the Clx.
pub fn code_losses(
    alloc: Global,
    wd: &[u8],
    characters: &[u8],
    paragraphs: &[u8],
    clx: &[u8],
) -> Result<Vec<TextFeature>, Memory>
    ensures { IfOk result (λ features. AreCodeLosses
        (record { wd = wd.now; characters = characters.now; paragraphs = paragraphs.now; clx = clx.now })
        features.items) }
{
    let mut features = Vec::new(alloc);
    add_codes(alloc, &mut features, PageKind::Chpx, wd, characters)?;
    add_codes(alloc, &mut features, PageKind::Papx, wd, paragraphs)?;
    add_prcs(alloc, &mut features, clx)?;
    Ok(features)
}

/// Names those of the pages of one kind.
fn add_codes(
    alloc: Global,
    features: &mut Vec<TextFeature>,
    kind: PageKind,
    wd: &[u8],
    bin: &[u8],
) -> Result<(), Memory>
    ensures { OnOk result ((lists : List (List Prl)) × (AreListsOfPages kind wd.now bin.now lists
        × (features.new.items ≡ features.old.items ++ codes_of (kind_of_pages kind) lists))) }
{
    let counts = count_pages(alloc, kind, wd, bin)?;
    push_all_skipped(features, list_kind(kind), &counts.first)?;
    push_all_repeated(features, list_kind(kind), &counts.again)?;
    Ok(())
}

/// Names those of the Prcs.
fn add_prcs(alloc: Global, features: &mut Vec<TextFeature>, clx: &[u8]) -> Result<(), Memory>
    ensures { OnOk result ((lists : List (List Prl)) × (AreListsOfPrcs clx.now lists
        × (features.new.items ≡ features.old.items ++ codes_of Prc lists))) }
{
    let counts = count_prcs(alloc, clx)?;
    push_all_skipped(features, ListKind::Prc, &counts.first)?;
    push_all_repeated(features, ListKind::Prc, &counts.again)?;
    Ok(())
}

/// The kind of the lists of pages.
fn list_kind(kind: PageKind) -> ListKind
    ensures { result ≡ kind_of_pages kind }
{
    match kind {
        PageKind::Chpx => ListKind::Chpx,
        PageKind::Papx => ListKind::Papx,
    }
}
