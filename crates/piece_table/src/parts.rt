// [MS-DOC] Clx: its Prcs, and the Plc of its Pcdt.
ghost use Rattle.std.specs.Prelude.{◌≡◌, ℕ, ◌+◌, ◌^◌, ◌<◌};
ghost use Rattle.std.specs.Prelude.{List, length, slice_get, MatchOption, MatchResult};
ghost use Rattle.std.specs.Prelude.{IfOk, OnOk, Some, [], ◌++◌, ◌∷◌};
ghost use Rattle.doc_bits.specs.Rules.{From, rule, Hold};
ghost use Rattle.doc_bits.specs.Plc.{PlcPart};
ghost use Rattle.piece_table.specs.Clx.{IsWrongClxAt};
ghost use Rattle.piece_table.specs.ClxRules.{IsClxFault};
ghost use Rattle.piece_table.specs.Front.{IsPrcFront, IsPcdtFront, AreAllPrcs, AreClxParts, clx_parts};

use crate::ClxFault;
use doc_bits::{Memory, Plc, get16, get32, plc_of};
use std::alloc::Global;
use std::marker::Model;

const RULE_CLX: u8 = 27;

pub const CLXT_PRC: u8 = 1;

pub const CLXT_PCDT: u8 = 2;

/// The most bytes of the sprm list of a Prc.
pub const MAX_GRPPRL: usize = 0x3FA2;

/// The bytes of a Prc before its sprm list: clxt and cbGrpprl.
pub const PRC_HEAD: usize = 3;

/// The bytes of a Pcd.
const PCD_SIZE: usize = 8;

/// The sprm lists of Prcs. No byte is copied.
#[derive(Drop)]
pub struct Prcs<'a> {
    lists: Vec<&'a [u8]>,
}

impl<'a> Model for Prcs<'a> {
    ghost use Rattle.std.specs.Prelude.{ℕ, List, map};

    ghost Value = { List (List ℕ) };

    ghost view = { λ prcs. map (λ list. list.now) prcs.lists.items };
}

impl<'a> Prcs<'a> {
    /// No list.
    fn new(alloc: Global) -> Prcs<'a>
        ensures { result ≡ [] }
    {
        Prcs {
            lists: Vec::new(alloc),
        }
    }

    /// Appends a list.
    fn push(&mut self, list: &'a [u8]) -> Result<(), Memory>
        ensures { OnOk result (self.new ≡ self.old ++ list.now ∷ []) }
    {
        self.lists.push(list)?;
        Ok(())
    }

    pub fn len(&self) -> usize
        ensures { result ≡ length self.now }
    {
        self.lists.len()
    }

    /// The sprm list of a Prc by its number.
    pub fn list(&self, i: usize) -> &'a [u8]
        requires { i < length self.now }
        ensures { slice_get self.now i ≡ Some result.now }
    {
        self.lists[i]
    }
}

/// What a Clx has.
#[derive(Drop)]
pub struct Parts<'a> {
    pub prcs: Prcs<'a>,
    /// Where the Plc begins, in bytes from the start of the Clx.
    pub place: usize,
    pub plc: Plc<'a>,
}

/// The parts of a Clx that is at `at` in the table stream.
pub fn parts_of(alloc: Global, clx: &[u8], at: u32) -> Result<Parts<'_>, ClxFault>
    requires place { at + length clx.now < 2 ^ 32 }
    ensures { MatchResult result
        (λ parts. Hold (rule 27 (From at (IsWrongClxAt clx.now))) × AreClxParts clx.now (clx_parts parts) parts.place)
        (IsClxFault (rule 27 (From at (IsWrongClxAt clx.now)))) }
{
    let (prcs, end) = prcs_of(alloc, clx)?;
    match pcdt_front(&clx[end..]) {
        Some(plc) => Ok(Parts {
            prcs,
            place: end + 5,
            plc,
        }),
        None => Err(ClxFault::Rule {
            rule: RULE_CLX,
            offset: at + end as u32,
        }),
    }
}

/// The Prcs at the front, and where what follows them begins.
fn prcs_of(alloc: Global, clx: &[u8]) -> Result<(Prcs<'_>, usize), Memory>
    ensures { IfOk result (λ found. AreAllPrcs clx.now found.0 found.1) }
{
    let mut prcs = Prcs::new(alloc);
    let mut at = 0;
    while let Some(grpprl) = prc_front(&clx[at..]) {
        let from = at + PRC_HEAD;
        prcs.push(&clx[from..from + grpprl])?;
        at = from + grpprl;
    }
    Ok((prcs, at))
}

/// The length of the sprm list of a Prc that is at the front.
pub fn prc_front(bytes: &[u8]) -> Option<usize>
    ensures { MatchOption result ((size : ℕ) → ¬ IsPrcFront bytes.now size) (IsPrcFront bytes.now) }
{
    if bytes.len() < PRC_HEAD || bytes[0] != CLXT_PRC {
        return None;
    }
    let size = get16(bytes, 1) as usize;
    if size > MAX_GRPPRL || PRC_HEAD + size > bytes.len() {
        return None;
    }
    Some(size)
}

/// The Plc of a Pcdt that is at the front.
fn pcdt_front(bytes: &[u8]) -> Option<Plc<'_>>
    ensures { MatchOption result ((plc : PlcPart) → ¬ IsPcdtFront bytes.now plc) (IsPcdtFront bytes.now) }
{
    if bytes.len() < 5 || bytes[0] != CLXT_PCDT {
        return None;
    }
    let size = get32(bytes, 1) as usize;
    if 5 + size > bytes.len() {
        return None;
    }
    let Ok(plc) = plc_of(&bytes[5..5 + size], PCD_SIZE) else {
        return None;
    };
    if plc.len() == 0 { None } else { Some(plc) }
}
