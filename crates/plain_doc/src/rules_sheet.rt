// The rules on each style.
ghost use Rattle.std.specs.Prelude.{◌↔◌, IsTrue};
ghost use Rattle.doc_bits.specs.Rules.{LeastOrNone, Nowhere};
ghost use Rattle.style_sheet.specs.Chain.{BreaksBases};
ghost use Rattle.style_sheet.specs.Formed.{IsFormedSheet, IsFormedKind};
ghost use Rattle.plain_doc.specs.RulesOfSheet.{HasShortKind, HasShortStyle};
ghost use Rattle.plain_doc.specs.StyleRules.{IsValidStyle, IsWrongStyle};
ghost use Rattle.plain_doc.specs.Sound.{IsValidSheet};

use crate::rules_items::{is_short_chp, is_short_pap};
use style_sheet::{Kind, StyleSheet};

/// The most bytes of an STD without its count.
const STD_MAX: u64 = 32_767;

/// A rule on each style.
#[derive(Clone, Copy)]
pub(crate) enum StyleRule {
    /// The properties are short enough for a file.
    Properties,
    /// The style fits an STD.
    Written,
}

/// Whether the styles of a sheet break no rule.
pub fn is_valid_sheet(sheet: &StyleSheet) -> bool
    ensures { IsTrue result → IsValidSheet sheet.now }
{
    if !has_valid_bases(sheet) {
        return false;
    }
    if !are_valid_styles(StyleRule::Properties, sheet) {
        return false;
    }
    are_valid_styles(StyleRule::Written, sheet)
}

/// Whether the bases of all styles end.
fn has_valid_bases(sheet: &StyleSheet) -> bool
    ensures { IsTrue result → Nowhere (BreaksBases sheet.now) }
{
    match sheet.broken_base() {
        None => true,
        Some(_) => false,
    }
}

/// Whether all styles are right by the rule.
fn are_valid_styles(rule: StyleRule, sheet: &StyleSheet) -> bool
    ensures { IsTrue result → Nowhere (IsWrongStyle rule sheet.now) }
{
    match wrong_style(rule, sheet) {
        None => true,
        Some(_) => false,
    }
}

/// The first style that is not right by the rule.
pub(crate) fn wrong_style(rule: StyleRule, sheet: &StyleSheet) -> Option<u32>
    ensures { LeastOrNone (IsWrongStyle rule sheet.now) result }
{
    for istd in 0..sheet.slots() {
        if !is_valid_style(rule, sheet, istd as u16) {
            return Some(istd as u32);
        }
    }
    None
}

/// Whether the style of this number, where there is one, is right by the rule.
fn is_valid_style(rule: StyleRule, sheet: &StyleSheet, istd: u16) -> bool
    requires { IsFormedSheet sheet.now }
    ensures { IsTrue result ↔ IsValidStyle rule sheet.now istd }
{
    match rule {
        StyleRule::Properties => has_short_style(sheet, istd),
        StyleRule::Written => sheet.std_len(istd) <= STD_MAX,
    }
}

/// Whether the properties of the style of this number, where there is one, are short enough for a
/// file.
fn has_short_style(sheet: &StyleSheet, istd: u16) -> bool
    requires { IsFormedSheet sheet.now }
    ensures { IsTrue result ↔ HasShortStyle sheet.now istd }
{
    match sheet.get(istd) {
        None => true,
        Some(style) => has_short_kind(&style.kind),
    }
}

/// Whether the properties of a kind of style are short enough for a file.
fn has_short_kind(kind: &Kind) -> bool
    requires { IsFormedKind kind.now }
    ensures { IsTrue result ↔ HasShortKind kind.now }
{
    match kind {
        Kind::Para { pap, chp } => is_short_pap(pap) && is_short_chp(chp),
        Kind::Char { chp } => is_short_chp(chp),
        Kind::Other { .. } => true,
    }
}
