// Bases of styles that are taken away.
ghost use Rattle.std.specs.Prelude.{◌≡◌, ◌↔◌, ◌<◌, [], ◌∷◌, ◌++◌, if◌then◌else◌, map, length, All, IsTrue};
ghost use Rattle.std.specs.Prelude.{IfOk, OnOk, OnErr};
ghost use Rattle.style_sheet.specs.Chain.{style_kind_at, HasNoChain};
ghost use Rattle.doc_mends.specs.declared.mends.Mend.TheVariants.{DropBase};
ghost use Rattle.doc_mends.specs.Bases.{has_other_base as names_other_base, other_bases as other_bases_of};
ghost use Rattle.doc_mends.specs.Bases.{bases_dropped, AreEndless, IsDropOf, DropsBases};

use crate::mends::Mend;
use doc_bits::Memory;
use doc_columns::ColumnDocument;
use std::alloc::Global;
use style_sheet::StyleSheet;

/// Takes the bases of styles away that break rule 65: those that are no styles of the kind of the style that names
/// them, and those of each style whose bases do not end then. Without memory all but the styles stays.
pub fn drop_bases(alloc: Global, document: &mut ColumnDocument) -> Result<Vec<Mend>, Memory>
    ensures ok { IfOk result (λ mends. DropsBases document.old document.new mends.items) }
    ensures err { OnErr result (document.new ≡ record document.old { sheet = document.new.sheet }) }
{
    let istds = drop_from(alloc, &mut document.sheet)?;
    let mends = base_mends(alloc, &istds)?;
    Ok(mends)
}

/// The mends of these styles.
fn base_mends(alloc: Global, found: &[u16]) -> Result<Vec<Mend>, Memory>
    ensures { IfOk result (λ mends. mends.items ≡ map DropBase found.now) }
{
    let mut mends = Vec::with_capacity(alloc, found.len())?;
    for k in 0..found.len() {
        mends.push(Mend::DropBase(found[k]))?;
    }
    Ok(mends)
}

/// Takes them away from a sheet, and says which styles they were of.
fn drop_from(alloc: Global, sheet: &mut StyleSheet) -> Result<Vec<u16>, Memory>
    ensures drop { IfOk result (λ istds. IsDropOf sheet.old istds.items) }
    ensures sheet { IfOk result (λ istds. sheet.new ≡ bases_dropped istds.items sheet.old) }
{
    let mut istds = other_bases(alloc, sheet)?;
    drop_each(sheet, &istds)?;
    let endless = endless_bases(alloc, sheet)?;
    drop_each(sheet, &endless)?;
    istds.extend_from_slice(&endless)?;
    Ok(istds)
}

/// The styles that have bases of other kinds.
fn other_bases(alloc: Global, sheet: &StyleSheet) -> Result<Vec<u16>, Memory>
    ensures list { IfOk result (λ istds. istds.items ≡ other_bases_of sheet.now) }
    ensures kinds { IfOk result (λ istds. All (λ istd. 0 < style_kind_at sheet.now istd) istds.items) }
{
    let mut istds = Vec::new(alloc);
    for istd in 0..sheet.slots() as u16 {
        add_where(has_other_base(sheet, istd), istd, &mut istds)?;
    }
    Ok(istds)
}

/// Appends a number, where it is such a one.
fn add_where(is: bool, istd: u16, istds: &mut Vec<u16>) -> Result<(), Memory>
    ensures { OnOk result (istds.new.items ≡ istds.old.items ++ (if is then istd ∷ [] else [])) }
{
    if is {
        istds.push(istd)?;
    }
    Ok(())
}

/// Whether a style of paragraphs or characters has a base of another kind.
fn has_other_base(sheet: &StyleSheet, istd: u16) -> bool
    ensures { result ≡ names_other_base sheet.now istd }
{
    let kind = sheet.kind_number(istd);
    match sheet.base(istd) {
        None => false,
        Some(base) => kind > 0 && sheet.kind_number(base) != kind,
    }
}

/// The styles whose bases do not end.
fn endless_bases(alloc: Global, sheet: &StyleSheet) -> Result<Vec<u16>, Memory>
    ensures list { IfOk result (λ istds. AreEndless sheet.now (length sheet.now.styles) istds.items) }
    ensures kinds { IfOk result (λ istds. All (λ istd. 0 < style_kind_at sheet.now istd) istds.items) }
{
    let mut istds = Vec::new(alloc);
    for istd in 0..sheet.slots() as u16 {
        add_where(is_endless(sheet, istd), istd, &mut istds)?;
    }
    Ok(istds)
}

/// Whether a style of paragraphs or characters has bases that do not end.
fn is_endless(sheet: &StyleSheet, istd: u16) -> bool
    ensures { IsTrue result ↔ HasNoChain sheet.now istd }
{
    sheet.has_properties(istd) && !sheet.has_chain(istd)
}

/// Takes the bases of these styles away.
fn drop_each(sheet: &mut StyleSheet, istds: &[u16]) -> Result<(), Memory>
    requires { All (λ istd. 0 < style_kind_at sheet.old istd) istds.now }
    ensures { OnOk result (sheet.new ≡ bases_dropped istds.now sheet.old) }
{
    for k in 0..istds.len() {
        sheet.drop_base(istds[k])?;
    }
    Ok(())
}
