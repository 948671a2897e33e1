// The formats of characters, over the styles of a sheet.
ghost use Rattle.std.specs.Prelude.{◌≡◌, ◌↔◌, ◌<◌, [], IfOk, IsTrue, MatchOption, slice_index};
ghost use Rattle.doc_bits.specs.Number.{u16_at};
ghost use Rattle.style_sheet.specs.Chain.{style_kind_at, HasSoundBases};
ghost use Rattle.effective_props.specs.Layers.{AreNamedLayers, named_style};
ghost use Rattle.char_formats.specs.Formats.{IsCharFormat};
ghost use Rattle.char_formats.specs.Styles.{IsStyleChange, IsNamedChange, IsUnderChange};

use crate::CharFormat;
use crate::change::Change;
use crate::location::location_in;
use crate::style_changes::style_changes;
use doc_bits::Memory;
use prop_map::PropMap;
use sprm_table::SPRM_C_ISTD;
use std::alloc::Global;
use std::marker::Model;
use style_sheet::StyleSheet;

/// A sheet, and what each of its styles makes of a format.
#[derive(Drop)]
pub struct StyleFormats {
    sheet: StyleSheet,
    changes: Vec<Option<Change>>,
}

impl Model for StyleFormats {
    ghost use Rattle.style_sheet.specs.Sheet.{Sheet, sheet_code};
    ghost use Rattle.char_formats.specs.Styles.{AreStyleChanges};

    ghost Value = { Sheet };

    ghost coded = { sheet_code };

    ghost view = { λ f. f.sheet };

    ghost invariant = { λ f. AreStyleChanges f.sheet f.changes.items };
}

impl StyleFormats {
    /// Reckons what each style makes of a format. The sheet is shared.
    pub fn of(alloc: Global, sheet: &StyleSheet) -> Result<StyleFormats, Memory>
        requires { HasSoundBases sheet.now }
        ensures { IfOk result (λ formats. formats ≡ sheet.now) }
    {
        let changes = style_changes(alloc, sheet)?;
        let sheet = sheet.copy(alloc)?;
        Ok(StyleFormats { sheet, changes })
    }

    /// The format of a character in a paragraph of the style `istd`. It takes no memory.
    pub fn format(&self, istd: u16, direct: &PropMap) -> CharFormat
        requires { style_kind_at self.now istd ≡ 1 }
        ensures { IsCharFormat self.now istd direct.now result }
    {
        let mut change = self.under_direct(istd, direct);
        change.lay_all(direct);
        change.format(location_in(direct))
    }

    /// The change of the style, and behind it that of the style that the direct properties name.
    fn under_direct(&self, istd: u16, direct: &PropMap) -> Change
        requires { style_kind_at self.now istd ≡ 1 }
        ensures { IsUnderChange self.now istd (named_style direct.now) result }
    {
        let style = self.style_change(istd);
        match self.named_change(direct) {
            None => style,
            Some(named) => style.then(&named),
        }
    }

    /// The change of the style that the direct properties name, where it is one of characters.
    fn named_change(&self, direct: &PropMap) -> Option<Change>
        ensures { MatchOption result (AreNamedLayers self.now (named_style direct.now) [])
            (IsNamedChange self.now (named_style direct.now)) }
    {
        let Some(value) = direct.get(SPRM_C_ISTD) else {
            return None;
        };
        let istd = first_word(value);
        if !self.is_of_characters(istd) {
            return None;
        }
        Some(self.style_change(istd))
    }

    /// Whether the style is one of characters.
    fn is_of_characters(&self, istd: u16) -> bool
        ensures { IsTrue result ↔ style_kind_at self.now istd ≡ 2 }
    {
        self.sheet.has_properties(istd) && !self.sheet.is_para(istd)
    }

    /// The change of a style of paragraphs or of characters.
    fn style_change(&self, istd: u16) -> Change
        requires { 0 < style_kind_at self.now istd }
        ensures { IsStyleChange self.now istd result }
    {
        match self.changes.get(istd as usize) {
            Some(Some(change)) => *change,
            _ => Change::none(),
        }
    }
}

/// The 16-bit number at the front of a value; bytes that are not there count as 0.
fn first_word(value: &[u8]) -> u16
    ensures { result ≡ u16_at value.now 0 }
{
    byte_at(value, 0) as u16 + byte_at(value, 1) as u16 * 256
}

/// The byte at a place, or 0 where none is.
fn byte_at(value: &[u8], at: usize) -> u8
    ensures { result ≡ slice_index value.now at }
{
    if at < value.len() { value[at] } else { 0 }
}
