// The values of a paragraph mark that numbers, outlines and pages go by.
ghost use Rattle.std.specs.Prelude.{◌≡◌, slice_index, option_map};
ghost use Rattle.std.specs.FinMap.{get};
ghost use Rattle.doc_bits.specs.Number.{u16_at};
ghost use Rattle.effective_props.specs.Layers.{paragraph_properties};
ghost use Rattle.list_numbers.specs.MarkValues.{no_values, own_values, over};
ghost use Rattle.list_numbers.specs.MarkValues.{word_in, byte_in};

use prop_map::PropMap;
use sprm_table::{
    Code, SPRM_P_F_BI_DI, SPRM_P_F_PAGE_BREAK_BEFORE, SPRM_P_ILFO, SPRM_P_ILVL, SPRM_P_OUT_LVL,
};
use style_sheet::{Kind, Style};

/// The values of a paragraph mark, or what some layers say of them.
#[derive(Clone, Copy)]
pub(crate) struct MarkValues {
    /// [MS-DOC] sprmPIlfo.
    pub(crate) ilfo: Option<u16>,
    /// [MS-DOC] sprmPIlvl.
    pub(crate) ilvl: Option<u8>,
    /// [MS-DOC] sprmPOutLvl.
    pub(crate) outline: Option<u8>,
    /// [MS-DOC] sprmPFPageBreakBefore.
    pub(crate) breaks_page: Option<u8>,
    /// [MS-DOC] sprmPFBiDi.
    pub(crate) right_to_left: Option<u8>,
}

impl MarkValues {
    /// Nothing is said.
    pub(crate) fn none() -> MarkValues
        ensures { result ≡ no_values }
    {
        MarkValues {
            ilfo: None,
            ilvl: None,
            outline: None,
            breaks_page: None,
            right_to_left: None,
        }
    }

    /// What a map says.
    pub(crate) fn own(map: &PropMap) -> MarkValues
        ensures { result ≡ own_values map.now }
    {
        MarkValues {
            ilfo: word_at(map, SPRM_P_ILFO),
            ilvl: byte_at(map, SPRM_P_ILVL),
            outline: byte_at(map, SPRM_P_OUT_LVL),
            breaks_page: byte_at(map, SPRM_P_F_PAGE_BREAK_BEFORE),
            right_to_left: byte_at(map, SPRM_P_F_BI_DI),
        }
    }

    /// What these values say, and else the values below.
    pub(crate) fn over(self, below: MarkValues) -> MarkValues
        ensures { result ≡ over self below }
    {
        MarkValues {
            ilfo: self.ilfo.or(below.ilfo),
            ilvl: self.ilvl.or(below.ilvl),
            outline: self.outline.or(below.outline),
            breaks_page: self.breaks_page.or(below.breaks_page),
            right_to_left: self.right_to_left.or(below.right_to_left),
        }
    }
}

/// What a style says by itself, where it is there.
#[tactic(auto, using(crate::proofs::MarkValueLemmas::own_of_empty))]
pub(crate) fn values_of_slot(style: Option<&Style>) -> MarkValues
    ensures { result ≡ own_values (paragraph_properties (option_map (λ s. s.now) style.entry)) }
{
    let Some(style) = style else {
        return MarkValues::none();
    };
    match &style.kind {
        Kind::Para { pap, .. } => MarkValues::own(pap),
        Kind::Char { .. } => MarkValues::none(),
        Kind::Other { .. } => MarkValues::none(),
    }
}

/// The 16-bit number that a map has at a code.
fn word_at(map: &PropMap, code: Code) -> Option<u16>
    ensures { result ≡ word_in (get map.now code.0) }
{
    match map.get(code) {
        None => None,
        Some(value) => Some(word(value)),
    }
}

/// The byte that a map has at a code.
fn byte_at(map: &PropMap, code: Code) -> Option<u8>
    ensures { result ≡ byte_in (get map.now code.0) }
{
    match map.get(code) {
        None => None,
        Some(value) => Some(byte(value, 0)),
    }
}

/// The 16-bit number of a value. Bytes that are not there are 0.
fn word(value: &[u8]) -> u16
    ensures { result ≡ u16_at value.now 0 }
{
    byte(value, 0) as u16 + 256 * byte(value, 1) as u16
}

/// A byte of a value, or 0.
fn byte(value: &[u8], i: usize) -> u8
    ensures { result ≡ slice_index value.now i }
{
    if i < value.len() { value[i] } else { 0 }
}
