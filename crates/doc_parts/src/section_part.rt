// [MS-DOC] PlcfSed and Sepx.
ghost use Rattle.std.specs.Prelude.{◌≡◌, ◌≢◌, ◌+◌, ◌*◌, ◌<◌};
ghost use Rattle.std.specs.Prelude.{◌^◌, length, IfOk, MatchOption, MatchResult};
ghost use Rattle.doc_bits.specs.Number.{u16_at};
ghost use Rattle.doc_bits.specs.Rules.{Hold};
ghost use Rattle.doc_parts.specs.Table.{IsPartFault};
ghost use Rattle.doc_parts.specs.Sections.{sed_form, section_rules, AreSections, HaveFileNumbers, printed_sections};
ghost use Rattle.doc_parts.specs.Sections.{place_of_fc_sepx, HasSepx};

use crate::PartFault;
use crate::cps::{CpForm, CpOrder};
use crate::lists::{Sed, Seds};
use crate::tables::{TableEntry, print_table, read_table};
use doc_bits::{Bytes, Memory, get16, get32, put32};
use std::alloc::Global;

const RULE_SECTIONS: u8 = 33;

/// A section has this fcSepx where it has no properties.
pub const NO_SEPX: u32 = 0xFFFF_FFFF;

/// A Sepx is nowhere before it in `WordDocument`.
const SEPX_FROM: usize = 1024;

/// The place of fcSepx in a Sed.
pub const FC_SEPX: usize = 2;

pub const SED_LEN: usize = 12;

impl TableEntry for Sed {
    ghost form = { sed_form };

    ghost SIZE = { 12 };

    const SIZE: usize = SED_LEN;

    fn read(cp: u32, bytes: &[u8]) -> Option<Sed> {
        Some(Sed {
            start: cp,
            sepx: get32(bytes, FC_SEPX),
        })
    }

    fn cp(&self) -> u32 {
        self.start
    }

    fn print(&self, bytes: &mut Bytes) -> Result<(), Memory> {
        let mut sed = [0u8; SED_LEN];
        put32(&mut sed, FC_SEPX, self.sepx);
        bytes.push_all(&sed)
    }

    ghost use Rattle.doc_parts.specs.EntryLaws.{sed-sized, sed-keeps_cp};

    ghost sized = { sed-sized };

    ghost keeps_cp = { sed-keeps_cp };
}

/// Reads PlcfSed, which is at `at` in the table stream, for a main text of `main_len` units.
/// The last CP is not looked at.
pub fn sections(alloc: Global, plc: &[u8], at: u32, main_len: u32) -> Result<Seds, PartFault>
    requires { at + length plc.now < 2 ^ 32 }
    ensures { MatchResult result
        (λ list. Hold (section_rules plc.now at main_len) × AreSections plc.now main_len list)
        (IsPartFault (section_rules plc.now at main_len)) }
{
    if plc.len() < 4 + 4 + SED_LEN {
        return Err(PartFault::Rule {
            rule: RULE_SECTIONS,
            offset: at,
        });
    }
    let cps = CpForm {
        order: CpOrder::Ascend,
        from_zero: true,
        story_len: main_len,
    };
    let read = read_table::<Sed>(alloc, plc, at, cps)?;
    if let Some(offset) = read.fault {
        return Err(PartFault::Rule {
            rule: RULE_SECTIONS,
            offset,
        });
    }
    Ok(Seds {
        items: read.entries,
    })
}

/// Writes PlcfSed with the last CP `end`.
pub fn print_sections(alloc: Global, list: &Seds, end: u32) -> Result<Bytes, Memory>
    ensures bytes { IfOk result (λ bytes. bytes ≡ printed_sections list.now end) }
    ensures numbers { HaveFileNumbers list.now }
{
    print_table(alloc, list.items.as_slice(), end)
}

/// The range in `WordDocument` of the property list of the Sepx at `fc`.
pub fn sepx(wd: &[u8], fc: u32) -> Option<(usize, usize)>
    requires properties { fc ≢ NO_SEPX }
    ensures { MatchOption result (¬ (HasSepx wd.now fc))
        (λ range. HasSepx wd.now fc × (range.0 ≡ fc + 2) × (range.1 ≡ fc + 2 + u16_at wd.now fc)) }
{
    let from = fc as usize + 2;
    if (fc as usize) < SEPX_FROM || wd.len() < from {
        return None;
    }
    let to = from + get16(wd, fc as usize) as usize;
    if wd.len() < to {
        None
    } else {
        Some((from, to))
    }
}

/// The place in the table stream of fcSepx of section `k`, where PlcfSed is at `at` and has
/// `count` sections.
pub fn fc_sepx_place(at: u32, count: usize, k: usize) -> u32
    requires section { k < count }
    requires addressed { at + 4 + 16 * count < 2 ^ 32 }
    ensures { result ≡ place_of_fc_sepx at count k }
{
    at + (4 * (count + 1) + SED_LEN * k + FC_SEPX) as u32
}
