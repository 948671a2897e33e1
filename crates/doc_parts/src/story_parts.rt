// [MS-DOC] PlcffndRef, PlcffndTxt and PlcfHdd.
ghost use Rattle.std.specs.Prelude.{◌≡◌, ◌+◌, ◌<◌, ◌^◌, length, IfOk, MatchResult};
ghost use Rattle.doc_bits.specs.Rules.{Hold};
ghost use Rattle.doc_parts.specs.Table.{IsPartFault};
ghost use Rattle.doc_parts.specs.Stories.{ref_form, cut_form, ref_rules, cut_rules, AreRefs, AreCuts, printed_refs};
ghost use Rattle.doc_parts.specs.Stories.{printed_texts};

use crate::PartFault;
use crate::cps::{CpForm, CpOrder};
use crate::lists::{Cuts, NoteRef, Refs};
use crate::tables::{TableEntry, print_table, read_table};
use doc_bits::{Bytes, Memory, get16};
use std::alloc::Global;

pub const RULE_NOTES: u8 = 53;

impl TableEntry for NoteRef {
    ghost form = { ref_form };

    ghost SIZE = { 2 };

    const SIZE: usize = 2;

    fn read(cp: u32, bytes: &[u8]) -> Option<NoteRef> {
        Some(NoteRef {
            cp,
            auto: get16(bytes, 0) != 0,
        })
    }

    fn cp(&self) -> u32 {
        self.cp
    }

    fn print(&self, bytes: &mut Bytes) -> Result<(), Memory> {
        bytes.push16(if self.auto { 1 } else { 0 })
    }

    ghost use Rattle.doc_parts.specs.EntryLaws.{ref-sized, ref-keeps_cp};

    ghost sized = { ref-sized };

    ghost keeps_cp = { ref-keeps_cp };
}

/// A CP of a story's texts is alone.
impl TableEntry for u32 {
    ghost form = { cut_form };

    ghost SIZE = { 0 };

    const SIZE: usize = 0;

    fn read(cp: u32, _bytes: &[u8]) -> Option<u32> {
        Some(cp)
    }

    fn cp(&self) -> u32 {
        *self
    }

    fn print(&self, _bytes: &mut Bytes) -> Result<(), Memory> {
        Ok(())
    }

    ghost use Rattle.doc_parts.specs.EntryLaws.{cut-sized, cut-keeps_cp};

    ghost sized = { cut-sized };

    ghost keeps_cp = { cut-keeps_cp };
}

/// Reads PlcffndRef, which is at `at` in the table stream, for a main text of `main_len` units.
/// The last CP is not looked at.
pub fn note_refs(alloc: Global, plc: &[u8], at: u32, main_len: u32) -> Result<Refs, PartFault>
    requires { at + length plc.now < 2 ^ 32 }
    ensures { MatchResult result
        (λ list. Hold (ref_rules plc.now at main_len) × AreRefs plc.now main_len list)
        (IsPartFault (ref_rules plc.now at main_len)) }
{
    let cps = CpForm {
        order: CpOrder::Ascend,
        from_zero: false,
        story_len: main_len,
    };
    let read = read_table::<NoteRef>(alloc, plc, at, cps)?;
    if let Some(offset) = read.fault {
        return Err(PartFault::Rule {
            rule: RULE_NOTES,
            offset,
        });
    }
    Ok(Refs {
        items: read.entries,
    })
}

/// Reads PlcffndTxt or PlcfHdd, which is at `at` in the table stream, for a story of
/// `story_len` units. `rule` is the number that a fault gets. The last CP is not looked at.
pub fn texts(
    alloc: Global,
    plc: &[u8],
    at: u32,
    story_len: u32,
    rule: u8,
) -> Result<Cuts, PartFault>
    requires { at + length plc.now < 2 ^ 32 }
    ensures { MatchResult result
        (λ list. Hold (cut_rules rule plc.now at story_len) × AreCuts plc.now story_len list)
        (IsPartFault (cut_rules rule plc.now at story_len)) }
{
    let cps = CpForm {
        order: CpOrder::NeverFall,
        from_zero: true,
        story_len,
    };
    let read = read_table::<u32>(alloc, plc, at, cps)?;
    if let Some(offset) = read.fault {
        return Err(PartFault::Rule { rule, offset });
    }
    Ok(Cuts {
        items: read.entries,
    })
}

/// Writes PlcffndRef with the last CP `end`.
pub fn print_refs(alloc: Global, list: &Refs, end: u32) -> Result<Bytes, Memory>
    ensures { IfOk result (λ bytes. bytes ≡ printed_refs list.now end) }
{
    print_table(alloc, list.items.as_slice(), end)
}

/// Writes PlcffndTxt or PlcfHdd with the last CP `end`.
pub fn print_texts(alloc: Global, list: &Cuts, end: u32) -> Result<Bytes, Memory>
    ensures { IfOk result (λ bytes. bytes ≡ printed_texts list.now end) }
{
    print_table(alloc, list.items.as_slice(), end)
}
