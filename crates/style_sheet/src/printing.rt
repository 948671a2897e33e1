// [MS-DOC] STSH: writing a sheet. Profile: cbStshi 18, base 10, the number of the slot in the first
// upx of a style of paragraphs, bchUpe as cbStd.
ghost use Rattle.std.specs.Prelude.{◌≡◌, ◌+◌, ◌-◌, ◌%◌, ◌<◌, ◌≤◌, ◌^◌};
ghost use Rattle.std.specs.Prelude.{◌++◌, ◌↔◌, min, length, IsTrue, IfOk, OnOk};
ghost use Rattle.std.specs.List.{All, flat_map};
ghost use Rattle.doc_bits.specs.Number.{number_bytes};
ghost use Rattle.prop_map.specs.Formed.{IsFormedMap};
ghost use Rattle.prop_map.specs.Printing.{printed_list};
ghost use Rattle.style_sheet.specs.Sheet.{style_at};
ghost use Rattle.style_sheet.specs.Formed.{IsFormedStyle, IsFormedKind};
ghost use Rattle.style_sheet.specs.Counted.{written_counted};
ghost use Rattle.style_sheet.specs.Written.{written_stk, written_upxes, written_style, written_slot, written_sheet};
ghost use Rattle.style_sheet.specs.Written.{IsWritable, IsValidStsh};

use crate::{Kind, Style, StyleSheet};
use doc_bits::{Bytes, Memory};
use prop_map::PropMap;
use std::alloc::Global;

const CB_STSHI: u16 = 18;

const CB_STD_BASE: u16 = 10;

const NO_BASE: u16 = 0xFFF;

const STD_MAX: u64 = 32767;

impl StyleSheet {
    /// The STSH of the sheet.
    pub fn print(&self, alloc: Global) -> Result<Bytes, Memory>
        requires { IsWritable self.now }
        ensures bytes { IfOk result (λ bytes. bytes ≡ written_sheet self.now) }
        ensures back { IfOk result (IsValidStsh self.now) }
    {
        let mut bytes = Bytes::new(alloc);
        bytes.push16(CB_STSHI)?;
        bytes.push16(self.slots() as u16)?;
        bytes.push16(CB_STD_BASE)?;
        push_words(&mut bytes, &self.head())?;
        for istd in 0..self.slots() as u16 {
            self.push_slot(alloc, &mut bytes, istd)?;
        }
        Ok(bytes)
    }

    /// How many bytes the STD of a slot is written as, without its cbStd. It is 0 where the slot is
    /// empty.
    pub fn std_len(&self, istd: u16) -> u64
        ensures { result ≡ min (length (written_slot istd (style_at self.now istd))) (2 ^ 64 - 1) }
    {
        match self.get(istd) {
            None => 0,
            Some(style) => style.std_len(istd),
        }
    }

    /// Whether `print` may be called: each STD has at most 32,767 bytes (71).
    pub fn is_writable(&self) -> bool
        ensures { IsTrue result ↔ IsWritable self.now }
    {
        for istd in 0..self.slots() as u16 {
            if self.std_len(istd) > STD_MAX {
                return false;
            }
        }
        true
    }

    /// Appends a slot: its cbStd and its STD.
    fn push_slot(&self, alloc: Global, bytes: &mut Bytes, istd: u16) -> Result<(), Memory>
        requires { IsWritable self.now }
        ensures { OnOk result
            (bytes.new ≡ bytes.old ++ written_counted (written_slot istd (style_at self.now istd))) }
    {
        match self.get(istd) {
            None => bytes.push16(0),
            Some(style) => {
                let std = style.print(alloc, istd)?;
                push_counted(bytes, std.as_slice())?;
                Ok(())
            }
        }
    }
}

impl Style {
    /// The STD of the style in this slot.
    fn print(&self, alloc: Global, istd: u16) -> Result<Bytes, Memory>
        requires formed { IsFormedStyle self.now }
        requires short { length (written_style istd self.now) ≤ 32767 }
        ensures { IfOk result (λ bytes. bytes ≡ written_style istd self.now) }
    {
        let mut bytes = Bytes::new(alloc);
        bytes.push16(self.sti + 4096 * self.flags as u16)?;
        bytes.push16(self.kind.stk() + 16 * self.base.unwrap_or(NO_BASE))?;
        bytes.push16(self.kind.upx_count(istd) + 16 * self.next)?;
        bytes.push16(self.std_len(istd) as u16)?;
        bytes.push16(self.grfstd)?;
        bytes.push16(self.name.as_slice().len() as u16)?;
        push_words(&mut bytes, self.name.as_slice())?;
        bytes.push16(0)?;
        self.kind.push_upxes(alloc, &mut bytes, istd)?;
        Ok(bytes)
    }

    /// How many bytes `print` answers.
    fn std_len(&self, istd: u16) -> u64
        requires { IsFormedKind self.now.kind }
        ensures { result ≡ min (length (written_style istd self.now)) (2 ^ 64 - 1) }
    {
        let units = self.name.as_slice().len() as u64;
        let upxes = self.kind.upxes_len(istd);
        upxes
            .saturating_add(units.saturating_mul(2))
            .saturating_add(14)
    }
}

impl Kind {
    /// [MS-DOC] stk.
    fn stk(&self) -> u16
        requires { IsFormedKind self.now }
        ensures stk { result ≡ written_stk self.now }
        ensures bound { result < 16 }
    {
        match self {
            Kind::Para { .. } => 1,
            Kind::Char { .. } => 2,
            Kind::Other { stk, .. } => *stk as u16,
        }
    }

    /// [MS-DOC] cupx.
    fn upx_count(&self, istd: u16) -> u16
        requires { IsFormedKind self.now }
        ensures count { result ≡ length (written_upxes istd self.now) }
        ensures bound { result < 16 }
    {
        match self {
            Kind::Para { .. } => 2,
            Kind::Char { .. } => 1,
            Kind::Other { upxes, .. } => upxes.len() as u16,
        }
    }

    /// Appends the upxes of a style in this slot.
    fn push_upxes(&self, alloc: Global, bytes: &mut Bytes, istd: u16) -> Result<(), Memory>
        requires formed { IsFormedKind self.now }
        requires short { All (λ upx. length upx < 65536) (written_upxes istd self.now) }
        ensures { OnOk result
            (bytes.new ≡ bytes.old ++ flat_map (λ upx. written_counted upx) (written_upxes istd self.now)) }
    {
        match self {
            Kind::Para { pap, chp } => {
                push_paragraphs(alloc, bytes, istd, pap)?;
                push_characters(alloc, bytes, chp)?;
                Ok(())
            }
            Kind::Char { chp } => {
                push_characters(alloc, bytes, chp)?;
                Ok(())
            }
            Kind::Other { upxes, .. } => {
                push_list(bytes, upxes.as_slice())?;
                Ok(())
            }
        }
    }

    /// How many bytes `push_upxes` appends.
    fn upxes_len(&self, istd: u16) -> u64
        requires { IsFormedKind self.now }
        ensures { result ≡ min (length (flat_map (λ upx. written_counted upx) (written_upxes istd self.now)))
            (2 ^ 64 - 1) }
    {
        match self {
            Kind::Para { pap, chp } => {
                counted_len(2 + pap.printed_len()) + counted_len(chp.printed_len())
            }
            Kind::Char { chp } => counted_len(chp.printed_len()),
            Kind::Other { upxes, .. } => list_len(upxes.as_slice()),
        }
    }
}

/// Appends the upx of paragraph properties: the number of the slot, and their list.
fn push_paragraphs(alloc: Global, bytes: &mut Bytes, istd: u16, pap: &PropMap) -> Result<(), Memory>
    requires formed { IsFormedMap pap.now }
    requires short { length (number_bytes 2 istd ++ printed_list pap.now) < 65536 }
    ensures { OnOk result
        (bytes.new ≡ bytes.old ++ written_counted (number_bytes 2 istd ++ printed_list pap.now)) }
{
    let upx = paragraph_upx(alloc, istd, pap)?;
    push_counted(bytes, upx.as_slice())?;
    Ok(())
}

/// Appends the upx of character properties.
fn push_characters(alloc: Global, bytes: &mut Bytes, chp: &PropMap) -> Result<(), Memory>
    requires formed { IsFormedMap chp.now }
    requires short { length (printed_list chp.now) < 65536 }
    ensures { OnOk result (bytes.new ≡ bytes.old ++ written_counted (printed_list chp.now)) }
{
    let upx = chp.print(alloc)?;
    push_counted(bytes, upx.as_slice())?;
    Ok(())
}

/// The number of the slot, and the list of paragraph properties.
fn paragraph_upx(alloc: Global, istd: u16, pap: &PropMap) -> Result<Bytes, Memory>
    requires { IsFormedMap pap.now }
    ensures { IfOk result (λ bytes. bytes ≡ number_bytes 2 istd ++ printed_list pap.now) }
{
    let mut bytes = Bytes::new(alloc);
    bytes.push16(istd)?;
    let list = pap.print(alloc)?;
    bytes.push_all(list.as_slice())?;
    Ok(bytes)
}

/// Appends the lists, each with its count and its pad.
fn push_list(bytes: &mut Bytes, upxes: &[Bytes]) -> Result<(), Memory>
    requires { All (λ upx. length upx < 65536) upxes.now }
    ensures { OnOk result (bytes.new ≡ bytes.old ++ flat_map (λ upx. written_counted upx) upxes.now) }
{
    for upx in upxes {
        push_counted(bytes, upx.as_slice())?;
    }
    Ok(())
}

/// How many bytes `push_list` appends, or the most that the type has.
fn list_len(upxes: &[Bytes]) -> u64
    ensures { result ≡ min (length (flat_map (λ upx. written_counted upx) upxes.now)) (2 ^ 64 - 1) }
{
    let mut len = 0u64;
    for upx in upxes {
        len = len.saturating_add(counted_len(upx.as_slice().len() as u64));
    }
    len
}

/// How many bytes a count, so many bytes and their pad are.
fn counted_len(len: u64) -> u64
    requires { len < 2 ^ 63 }
    ensures { result ≡ 2 + (len + len % 2) }
{
    2 + (len + len % 2)
}

/// Appends numbers of 16 bits.
fn push_words(bytes: &mut Bytes, words: &[u16]) -> Result<(), Memory>
    ensures { OnOk result (bytes.new ≡ bytes.old ++ flat_map (λ number. number_bytes 2 number) words.now) }
{
    for number in words {
        bytes.push16(*number)?;
    }
    Ok(())
}

/// Appends a count, the bytes, and a zero where they are odd.
fn push_counted(bytes: &mut Bytes, more: &[u8]) -> Result<(), Memory>
    requires { length more.now < 65536 }
    ensures { OnOk result (bytes.new ≡ bytes.old ++ written_counted more.now) }
{
    bytes.push16(more.len() as u16)?;
    bytes.push_all(more)?;
    if more.len() % 2 != 0 {
        bytes.push_all(&[0])?;
    }
    Ok(())
}
