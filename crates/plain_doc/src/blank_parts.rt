// The blank document.
ghost use Rattle.std.specs.Prelude.{◌≡◌, ◌+◌, ◌<◌, ◌≤◌};
ghost use Rattle.std.specs.Prelude.{[], ◌∷◌, ◌++◌, length, replicate, Some, None, IfOk};
ghost use Rattle.doc_model.specs.Blank.{blank_item, normal_style, heading_style, default_font_style, one_property};
ghost use Rattle.doc_model.specs.Blank.{blank_sheet, blank_carried, blank_document};

use crate::rules_counts::{HEADERS_PER_SECTION, SEPARATORS};
use crate::{Carried, Document, Item, Items, Mark, Texts};
use cfb_streams::Streams;
use doc_bits::{Bytes, Memory, Units};
use doc_model::{AllTexts, OtherParts};
use doc_parts::Bookmarks;
use prop_map::PropMap;
use sprm_table::{Code, SPRM_C_F_BOLD, SPRM_P_OUT_LVL};
use std::alloc::Global;
use style_sheet::{Kind, Style, StyleSheet};
use text_codes::PARAGRAPH_MARK;

/// The header texts of one section, with the six separators of the notes.
const HEADS: usize = SEPARATORS + HEADERS_PER_SECTION;

/// [MS-DOC] stiMax and istdMaxFixed of Word 97.
const STI_MAX: u16 = 91;

const ISTD_MAX_FIXED: u16 = 15;

/// [MS-DOC] the sti of the default font of a paragraph.
const STI_DEFAULT_FONT: u16 = 65;

/// English (United States).
const LID_ENGLISH: u16 = 0x0409;

/// The CLSID of documents of Word 97.
const CLSID_WORD: [u8; 16] = [
    0x06, 0x09, 0x02, 0, 0, 0, 0, 0, 0xC0, 0, 0, 0, 0, 0, 0, 0x46,
];

/// The blank document: one empty paragraph in one section, three styles, and twelve empty header
/// texts.
pub fn blank(alloc: Global) -> Result<Document, Memory>
    ensures { IfOk result (λ made. made ≡ blank_document) }
{
    let main = only_paragraph(alloc)?;
    let heads = empty_heads(alloc)?;
    let sheet = sheet(alloc)?;
    let texts = AllTexts {
        main,
        notes: Texts::new(alloc),
        heads,
    };
    let others = OtherParts {
        sheet,
        carried: nothing_carried(alloc),
        bookmarks: Bookmarks::new(alloc),
    };
    Ok(texts.document(others))
}

/// One empty paragraph, which ends a section too.
fn only_paragraph(alloc: Global) -> Result<Items, Memory>
    ensures { IfOk result (λ items. items ≡ blank_item ∷ []) }
{
    let mut items = Items::new(alloc);
    items.add(only_item(alloc))?;
    Ok(items)
}

/// The empty header texts.
fn empty_heads(alloc: Global) -> Result<Texts, Memory>
    ensures { IfOk result (λ heads. heads ≡ replicate HEADS []) }
{
    let mut heads = Texts::new(alloc);
    for _k in 0..HEADS {
        heads.add(Items::new(alloc))?;
    }
    Ok(heads)
}

/// A paragraph mark of style 0, which ends a section too.
fn only_item(alloc: Global) -> Item
    ensures { result ≡ blank_item }
{
    Item {
        unit: PARAGRAPH_MARK,
        chp: PropMap::new(alloc),
        mark: Some(Mark {
            istd: 0,
            pap: PropMap::new(alloc),
        }),
        sect: Some(PropMap::new(alloc)),
        fld: None,
        note: None,
    }
}

/// Styles in the slots 0, 1 and 10 of 15.
fn sheet(alloc: Global) -> Result<StyleSheet, Memory>
    ensures { IfOk result (λ made. made ≡ blank_sheet) }
{
    let head = [1, STI_MAX, ISTD_MAX_FIXED, 0, 0, 0, 0];
    let mut sheet = StyleSheet::new(alloc, head, Some(normal(alloc)?))?;
    sheet.add(Some(heading(alloc)?))?;
    let mut sheet = with_empty_slots(sheet, 8)?;
    sheet.add(Some(default_font(alloc)?))?;
    let sheet = with_empty_slots(sheet, 4)?;
    Ok(sheet)
}

/// The sheet with empty slots at its end.
fn with_empty_slots(sheet: StyleSheet, count: usize) -> Result<StyleSheet, Memory>
    requires { length sheet.styles + count ≤ 4094 }
    ensures { IfOk result (λ more.
        more ≡ record { head = sheet.head; styles = sheet.styles ++ replicate count None }) }
{
    let mut more = sheet;
    for _k in 0..count {
        more.add(None)?;
    }
    Ok(more)
}

/// A style without a base, of no flags, which is followed by style 0.
fn style(sti: u16, name: Units, kind: Kind) -> Style
    ensures { result ≡ record { sti = sti; flags = 0; base = None; next = 0; grfstd = 0; name = name; kind = kind } }
{
    Style {
        sti,
        flags: 0,
        base: None,
        next: 0,
        grfstd: 0,
        name,
        kind,
    }
}

/// The style Normal.
fn normal(alloc: Global) -> Result<Style, Memory>
    ensures { IfOk result (λ made. made ≡ normal_style) }
{
    let kind = Kind::Para {
        pap: PropMap::new(alloc),
        chp: PropMap::new(alloc),
    };
    Ok(style(0, units_of(alloc, b"Normal")?, kind))
}

/// The style heading 1: an outline level, and bold letters.
fn heading(alloc: Global) -> Result<Style, Memory>
    ensures { IfOk result (λ made. made ≡ heading_style) }
{
    let kind = Kind::Para {
        pap: map_of(alloc, SPRM_P_OUT_LVL, 0)?,
        chp: map_of(alloc, SPRM_C_F_BOLD, 1)?,
    };
    let mut made = style(1, units_of(alloc, b"heading 1")?, kind);
    made.base = Some(0);
    Ok(made)
}

/// The character style Default Paragraph Font.
fn default_font(alloc: Global) -> Result<Style, Memory>
    ensures { IfOk result (λ made. made ≡ default_font_style) }
{
    let kind = Kind::Char {
        chp: PropMap::new(alloc),
    };
    Ok(style(
        STI_DEFAULT_FONT,
        units_of(alloc, b"Default Paragraph Font")?,
        kind,
    ))
}

/// A map of one property of one byte.
fn map_of(alloc: Global, code: Code, byte: u8) -> Result<PropMap, Memory>
    ensures { IfOk result (λ map. map ≡ one_property code.0 byte) }
{
    let mut map = PropMap::new(alloc);
    map.set(code, &[byte])?;
    Ok(map)
}

/// The units of a name in ASCII.
fn units_of(alloc: Global, name: &[u8]) -> Result<Units, Memory>
    ensures { IfOk result (λ units. units ≡ name.now) }
{
    let mut units = Units::new(alloc);
    for byte in name {
        units.push_all(&[u16::from(*byte)])?;
    }
    Ok(units)
}

/// Nothing but a language and the CLSID.
fn nothing_carried(alloc: Global) -> Carried
    ensures { result ≡ blank_carried }
{
    Carried {
        fonts: Bytes::new(alloc),
        dop: Bytes::new(alloc),
        assoc: Bytes::new(alloc),
        lst: Bytes::new(alloc),
        levels: Bytes::new(alloc),
        lfo: Bytes::new(alloc),
        clsid: CLSID_WORD,
        lid: LID_ENGLISH,
        lid_fe: 0,
        flags: 0,
        streams: Streams::new(alloc),
    }
}
