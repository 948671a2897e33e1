// [MS-DOC] PlcFld.
ghost use Rattle.std.specs.Prelude.{◌≡◌, ◌+◌, ◌%◌, ◌<◌, ◌^◌};
ghost use Rattle.std.specs.Prelude.{length, IfOk, MatchOption, MatchResult, IsTrue};
ghost use Rattle.doc_bits.specs.Rules.{Hold};
ghost use Rattle.doc_parts.specs.Table.{IsPartFault, AreReadEntries};
ghost use Rattle.doc_parts.specs.Fields.{field_kind_unit, is_field_unit, fld_form, fld_cps, field_rules};
ghost use Rattle.doc_parts.specs.Fields.{AreFieldCharacters};
ghost use Rattle.doc_parts.specs.Fields.{printed_fields};

use crate::PartFault;
use crate::cps::{CpForm, CpOrder};
use crate::lists::{Fld, Flds};
use crate::tables::{TableEntry, print_table, read_table};
use doc_bits::{Bytes, Memory};
use std::alloc::Global;

pub const RULE_FIELDS: u8 = 52;

/// What a field character does.
#[derive(Clone, Copy)]
enum FieldKind {
    Begin,
    Separator,
    End,
}

impl FieldKind {
    /// The kind by the low five bits of the first byte of a Fld.
    fn of(first: u8) -> Option<FieldKind>
        ensures { MatchOption result
            (¬ (IsTrue (is_field_unit (first % 32))))
            (λ kind. (field_kind_unit kind ≡ first % 32) × IsTrue (is_field_unit (first % 32))) }
    {
        match first % 32 {
            0x13 => Some(FieldKind::Begin),
            0x14 => Some(FieldKind::Separator),
            0x15 => Some(FieldKind::End),
            _ => None,
        }
    }

    /// The unit in the text.
    fn unit(self) -> u16
        ensures { result ≡ field_kind_unit self }
    {
        match self {
            FieldKind::Begin => 0x13,
            FieldKind::Separator => 0x14,
            FieldKind::End => 0x15,
        }
    }
}

impl TableEntry for Fld {
    ghost form = { fld_form };

    ghost SIZE = { 2 };

    const SIZE: usize = 2;

    fn read(cp: u32, bytes: &[u8]) -> Option<Fld> {
        let kind = FieldKind::of(bytes[0])?;
        Some(Fld {
            cp,
            unit: kind.unit(),
            byte: bytes[1],
        })
    }

    fn cp(&self) -> u32 {
        self.cp
    }

    fn print(&self, bytes: &mut Bytes) -> Result<(), Memory> {
        bytes.push_all(&[(self.unit % 256) as u8, self.byte])
    }

    ghost use Rattle.doc_parts.specs.EntryLaws.{fld-sized, fld-keeps_cp};

    ghost sized = { fld-sized };

    ghost keeps_cp = { fld-keeps_cp };
}

/// The field characters of a part before the first wrong one, and the place of that one in the
/// table stream.
#[derive(Drop)]
pub struct LeadingFields {
    pub list: Flds,
    pub fault: Option<u32>,
}

/// Reads a PlcFld as far as it is in order, so that the units at the CPs before its first fault can
/// still be looked at.
pub fn leading_fields(
    alloc: Global,
    plc: &[u8],
    at: u32,
    story_len: u32,
) -> Result<LeadingFields, Memory>
    requires { at + length plc.now < 2 ^ 32 }
    ensures { IfOk result (λ read. AreReadEntries fld_form (fld_cps story_len) plc.now at read.list read.fault) }
{
    let cps = CpForm {
        order: CpOrder::Ascend,
        from_zero: false,
        story_len,
    };
    let read = read_table::<Fld>(alloc, plc, at, cps)?;
    Ok(LeadingFields {
        list: Flds {
            items: read.entries,
        },
        fault: read.fault,
    })
}

/// Reads a PlcFld, which is at `at` in the table stream, for a story of `story_len` units. The
/// last CP is not looked at, and the units in the text neither.
pub fn fields(alloc: Global, plc: &[u8], at: u32, story_len: u32) -> Result<Flds, PartFault>
    requires { at + length plc.now < 2 ^ 32 }
    ensures { MatchResult result
        (λ list. Hold (field_rules plc.now at story_len) × AreFieldCharacters plc.now story_len list)
        (IsPartFault (field_rules plc.now at story_len)) }
{
    let read = leading_fields(alloc, plc, at, story_len)?;
    if let Some(offset) = read.fault {
        return Err(PartFault::Rule {
            rule: RULE_FIELDS,
            offset,
        });
    }
    Ok(read.list)
}

/// Writes a PlcFld with the last CP `end`.
pub fn print_fields(alloc: Global, list: &Flds, end: u32) -> Result<Bytes, Memory>
    ensures { IfOk result (λ bytes. bytes ≡ printed_fields list.now end) }
{
    print_table(alloc, list.items.as_slice(), end)
}
