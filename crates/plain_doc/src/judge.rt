// The rules on documents, checked in their order. No memory is taken.
ghost use Rattle.std.specs.Prelude.{◌≡◌, MatchResult};
ghost use Rattle.doc_bits.specs.Rules.{Hold, LeastOrNone, Nowhere, rule as rule_of};
ghost use Rattle.doc_bits.specs.Places.{LeastPlaceOrNone};
ghost use Rattle.doc_model.specs.Marks.{AreWrongBookmarks, HasWrongBookmarks};
ghost use Rattle.plain_doc.specs.RulesOfTexts.{InTexts};
ghost use Rattle.plain_doc.specs.TextRules.{BreaksText};
ghost use Rattle.plain_doc.specs.TextWalk.{HasTextCounts};
ghost use Rattle.plain_doc.specs.Sound.{NamesFirstRule, document_rules, text_rules, base_rules, count_rules};
ghost use Rattle.plain_doc.specs.Sound.{size_rules, HasLongProperties};

use crate::Document;
use crate::rules_counts::{Counts, HEADERS_PER_SECTION, SEPARATORS, all_items, counts_in};
use crate::rules_sheet::{StyleRule, wrong_style};
use crate::rules_texts::{ItemRule, TextRule, first_in_texts};
use doc_bits::Where;
use document_bookmarks::Bookmarks;
use thiserror::Error;

const RULE_ENDS: u8 = 60;

const RULE_PLACING: u8 = 61;

const RULE_FIELDS: u8 = 62;

const RULE_ROWS: u8 = 63;

const RULE_STYLES: u8 = 64;

const RULE_BASES: u8 = 65;

const RULE_NOTES: u8 = 66;

const RULE_HEADS: u8 = 67;

pub const RULE_ITEMS: u8 = 68;

const RULE_BOOKMARKS: u8 = 69;

pub const RULE_SETTINGS: u8 = 70;

pub const RULE_STD: u8 = 71;

/// The most items of all texts.
const MAX_ITEMS: u32 = 499_998;

/// The most bookmarks.
pub const MAX_BOOKMARKS: usize = 16_000;

/// The first broken rule, at its first place: an item of a text, a style of the sheet, or a number
/// of texts or items.
#[derive(Clone, Copy, Debug, Error)]
#[error("rule {rule} is broken at {at}")]
pub struct DocFault {
    pub rule: u8,
    pub place: Where,
    pub at: u32,
}

/// Checks a document by the rules 60 to 71. Its bookmarks may be in any order. No memory is taken.
pub fn check(document: &Document) -> Result<(), DocFault>
    ensures { MatchResult result
        (λ _. Hold (document_rules document.now))
        (NamesFirstRule (document_rules document.now)) }
{
    check_with(document, wrong_bookmarks(&document.bookmarks))
}

/// Checks a document by the rules 60 to 71, where it is known at which place its bookmarks break rule 69.
pub fn check_with(document: &Document, wrong: Option<u32>) -> Result<(), DocFault>
    requires { LeastOrNone (AreWrongBookmarks document.now.bookmarks) wrong }
    ensures { MatchResult result
        (λ _. Hold (document_rules document.now))
        (NamesFirstRule (document_rules document.now)) }
{
    check_texts(document)?;
    check_bases(document)?;
    check_counts(document, counts_in(document.main.as_slice()), wrong)?;
    check_sizes(document, first_long(document))?;
    Ok(())
}

/// Checks the texts by the rules 60 to 64.
fn check_texts(document: &Document) -> Result<(), DocFault>
    ensures { MatchResult result (λ _. Hold (text_rules document.now)) (NamesFirstRule (text_rules document.now)) }
{
    check_text_rule(document, RULE_ENDS, TextRule::End)?;
    check_text_rule(document, RULE_PLACING, TextRule::Each(ItemRule::Placing))?;
    check_text_rule(document, RULE_FIELDS, TextRule::Fields)?;
    check_text_rule(document, RULE_ROWS, TextRule::Rows)?;
    check_text_rule(document, RULE_STYLES, TextRule::Each(ItemRule::Styles))?;
    Ok(())
}

/// Checks the texts by a rule, which has this number.
fn check_text_rule(document: &Document, number: u8, rule: TextRule) -> Result<(), DocFault>
    ensures { MatchResult result
        (λ _. Nowhere (InTexts document.now (BreaksText rule document.now.sheet)))
        (NamesFirstRule (rule_of number (InTexts document.now (BreaksText rule document.now.sheet)))) }
{
    match first_in_texts(rule, document) {
        None => Ok(()),
        Some((place, at)) => Err(fault(number, place, at)),
    }
}

/// Checks the bases of styles, rule 65.
fn check_bases(document: &Document) -> Result<(), DocFault>
    ensures { MatchResult result (λ _. Hold (base_rules document.now)) (NamesFirstRule (base_rules document.now)) }
{
    match document.sheet.broken_base() {
        None => Ok(()),
        Some(istd) => Err(fault(RULE_BASES, Where::Sheet, istd as u32)),
    }
}

/// Checks the numbers of texts, items and bookmarks, and the names of these, rules 66 to 69.
fn check_counts(document: &Document, counts: Counts, wrong: Option<u32>) -> Result<(), DocFault>
    requires counts { HasTextCounts document.now.main counts }
    requires wrong { LeastOrNone (AreWrongBookmarks document.now.bookmarks) wrong }
    ensures { MatchResult result (λ _. Hold (count_rules document.now)) (NamesFirstRule (count_rules document.now)) }
{
    let notes = document.notes.len();
    if notes != counts.notes {
        return Err(fault(RULE_NOTES, Where::Main, notes as u32));
    }
    let heads = document.heads.len();
    if heads != SEPARATORS + HEADERS_PER_SECTION * counts.sections {
        return Err(fault(RULE_HEADS, Where::Main, heads as u32));
    }
    if all_items(document) > MAX_ITEMS as u128 {
        return Err(fault(RULE_ITEMS, Where::Main, MAX_ITEMS));
    }
    check_bookmarks(document, wrong)?;
    Ok(())
}

/// Checks the bookmarks, rule 69, which they break at this place.
fn check_bookmarks(document: &Document, wrong: Option<u32>) -> Result<(), DocFault>
    requires { LeastOrNone (AreWrongBookmarks document.now.bookmarks) wrong }
    ensures { MatchResult result
        (λ _. Nowhere (HasWrongBookmarks document.now))
        (NamesFirstRule (rule_of 69 (HasWrongBookmarks document.now))) }
{
    match wrong {
        None => Ok(()),
        Some(at) => Err(fault(RULE_BOOKMARKS, Where::Main, at)),
    }
}

/// Where the number of bookmarks or their names are wrong: at 0 where there are too many.
fn wrong_bookmarks(bookmarks: &Bookmarks) -> Option<u32>
    ensures { LeastOrNone (AreWrongBookmarks bookmarks.now) result }
{
    if bookmarks.len() > MAX_BOOKMARKS {
        return Some(0);
    }
    bookmarks.same_name()
}

/// `long` is the first place where properties are too long.
fn check_sizes(document: &Document, long: Option<(Where, u32)>) -> Result<(), DocFault>
    requires { LeastPlaceOrNone (HasLongProperties document.now) long }
    ensures { MatchResult result (λ _. Hold (size_rules document.now)) (NamesFirstRule (size_rules document.now)) }
{
    if let Some((place, at)) = long {
        return Err(fault(RULE_SETTINGS, place, at));
    }
    match wrong_style(StyleRule::Written, &document.sheet) {
        None => Ok(()),
        Some(istd) => Err(fault(RULE_STD, Where::Sheet, istd)),
    }
}

/// The first place where properties are too long. Styles come before texts.
fn first_long(document: &Document) -> Option<(Where, u32)>
    ensures { LeastPlaceOrNone (HasLongProperties document.now) result }
{
    if let Some(istd) = wrong_style(StyleRule::Properties, &document.sheet) {
        return Some((Where::Sheet, istd));
    }
    first_in_texts(TextRule::Each(ItemRule::Properties), document)
}

/// The fault of a rule at a place.
fn fault(rule: u8, place: Where, at: u32) -> DocFault
    ensures { result ≡ record { rule = rule; place = place; at = at } }
{
    DocFault { rule, place, at }
}
