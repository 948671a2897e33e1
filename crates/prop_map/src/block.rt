// The entries of a map in one block of bytes: of each entry its code, the length of its value, and the value.
ghost use Rattle.std.specs.Prelude.{◌≡◌, ◌↔◌, ◌<◌, ◌++◌, [], ◌∷◌, ◌==◌, ℕ, List, length};
ghost use Rattle.std.specs.Prelude.{IsTrue, IfOk, OnOk, MatchOption};
ghost use Rattle.std.specs.Option.{option_or};
ghost use Rattle.std.specs.Ordering.{nat_cmp};
ghost use Rattle.std.specs.FinMap as map;
ghost use Rattle.prop_map.specs.Block.{block_bytes, block_entry_bytes, AreBlockEntries, IsBlockEntry, IsPutBetween};
ghost use Rattle.prop_map.specs.Block.{entries_in, list_length, IsPropertyBlock, IsSortedBlock};
ghost use Rattle.prop_map.specs.Printing.{printed_list};
ghost use Rattle.doc_bits.specs.Number.{number_bytes};

use crate::printing::head_len;
use doc_bits::{Bytes, Memory, get16, get32};
use sprm_table::Code;
use std::alloc::Global;
use std::marker::Model;

/// The bytes of an entry before its value.
const HEAD_LEN: usize = 6;

/// The entries of a map, the codes ascending, each once.
#[derive(Drop)]
pub(crate) struct Block {
    bytes: Bytes,
    /// How many bytes they have as a list of sprms.
    list_len: u64,
}

impl Model for Block {
    ghost use Rattle.std.specs.FinMap as map;
    ghost use Rattle.prop_map.specs.Settings.{Properties, properties_code};
    ghost use Rattle.prop_map.specs.Block.{entries_in, IsCountedBlock};

    ghost Value = { Properties };

    ghost coded = { properties_code };

    ghost view = { λ b. map.from_sorted (entries_in b.bytes) };

    ghost invariant = { λ b. IsCountedBlock b.bytes b.list_len };
}

/// Entries that are left, the codes ascending.
#[derive(Drop)]
pub struct Entries<'a> {
    left: &'a [u8],
}

impl<'a> Model for Entries<'a> {
    ghost use Rattle.std.specs.Prelude.{List, ℕ};
    ghost use Rattle.prop_map.specs.Block.{entries_in, IsPropertyBlock};

    ghost Value = { List (ℕ × List ℕ) };

    ghost view = { λ e. entries_in e.left.now };

    ghost invariant = { λ e. IsPropertyBlock e.left.now };
}

impl<'a> Entries<'a> {
    /// No entries.
    pub(crate) fn none() -> Entries<'a>
        ensures { result ≡ [] }
    {
        Entries { left: &[] }
    }

    /// The entries once more.
    fn same(&self) -> Entries<'a>
        ensures { result ≡ self.now }
    {
        Entries { left: self.left }
    }

    /// Whether none is left.
    pub fn is_empty(&self) -> bool
        ensures { result ≡ (length self.now == 0) }
    {
        self.left.is_empty()
    }

    /// The first of them, with its code and its value.
    pub fn next(&mut self) -> Option<(Code, &'a [u8])>
        ensures { MatchOption result
            ((self.old ≡ []) × (self.new ≡ []))
            (λ entry. self.old ≡ (entry.0.0, entry.1.now) ∷ self.new) }
    {
        if self.left.is_empty() {
            return None;
        }
        let (code, value, rest) = first_of(self.left);
        self.left = rest;
        Some((code, value))
    }

    /// The bytes of those before some that follow.
    fn before(&self, rest: &Entries<'a>) -> &'a [u8]
        ensures { (below : List (ℕ × List ℕ)) → self.now ≡ below ++ rest.now
            → (result.now ≡ block_bytes below) × AreBlockEntries below }
    {
        let len = self.left.len().saturating_sub(rest.left.len());
        &self.left[..len]
    }

    /// Their bytes in the block.
    pub(crate) fn bytes(&self) -> &'a [u8]
        ensures bytes { result.now ≡ block_bytes self.now }
        ensures entries { AreBlockEntries self.now }
    {
        self.left
    }
}

/// The code and the value of the first entry of a block, and the bytes behind it.
#[tactic(auto, using(crate::proofs::BlockLemmas::has_first))]
fn first_of(block: &[u8]) -> (Code, &[u8], &[u8])
    requires block { IsPropertyBlock block.now }
    requires some { 0 < length block.now }
    ensures first { entries_in block.now ≡ (result.0.0, result.1.now) ∷ entries_in result.2.now }
    ensures rest { IsPropertyBlock result.2.now }
{
    let end = HEAD_LEN + get32(block, 2) as usize;
    (Code(get16(block, 0)), &block[HEAD_LEN..end], &block[end..])
}

impl Block {
    /// The block of these bytes, which are entries in order. They are taken over.
    pub(crate) fn of_bytes(mut bytes: Bytes) -> Block
        requires { IsSortedBlock bytes }
        ensures { result ≡ map.from_sorted (entries_in bytes) }
    {
        bytes.fit();
        let list_len = list_len(bytes.as_slice());
        Block { bytes, list_len }
    }

    /// The entries with a value at a code, in place of what was there.
    pub(crate) fn with_entry(
        alloc: Global,
        entries: Entries<'_>,
        code: Code,
        value: &[u8],
    ) -> Result<Block, Memory>
        requires { IsTrue (map.is_sorted nat_cmp entries) }
        ensures { IfOk result (λ made. made ≡ map.insert (map.from_sorted entries.entry) code.0 value.now) }
    {
        let mut bytes = Bytes::new(alloc);
        let rest = push_below(&mut bytes, entries, code)?;
        push_entry(&mut bytes, code, value)?;
        bytes.push_all(rest.bytes())?;
        Ok(Block::of_bytes(bytes))
    }

    /// All entries of `top`, and those of `base` at other codes: both are gone through once.
    pub(crate) fn merge(alloc: Global, base: Entries<'_>, top: Entries<'_>) -> Result<Block, Memory>
        requires base { IsTrue (map.is_sorted nat_cmp base) }
        requires top { IsTrue (map.is_sorted nat_cmp top) }
        ensures { IfOk result (λ made. (code : ℕ) → map.get made code ≡ option_or
            (map.find nat_cmp code top.entry) (map.find nat_cmp code base.entry)) }
    {
        let mut bytes = Bytes::new(alloc);
        let mut lower = base;
        let mut left = top;
        while let Some((code, value)) = left.next() {
            lower = push_below(&mut bytes, lower, code)?;
            push_entry(&mut bytes, code, value)?;
            if lower.is_empty() {
                let others = left.bytes();
                bytes.push_all(others)?;
                return Ok(Block::of_bytes(bytes));
            }
        }
        let rest = lower.bytes();
        bytes.push_all(rest)?;
        Ok(Block::of_bytes(bytes))
    }

    /// The entries themselves.
    pub(crate) fn entries(&self) -> Entries<'_>
        ensures { result ≡ map.entries self.now }
    {
        Entries {
            left: self.bytes.as_slice(),
        }
    }

    /// How many bytes they have as a list of sprms.
    pub(crate) fn list_len(&self) -> u64
        ensures { result ≡ length (printed_list self.now) }
    {
        self.list_len
    }
}

/// How many bytes the entries of a block have as a list of sprms.
fn list_len(block: &[u8]) -> u64
    requires { IsPropertyBlock block.now }
    ensures { result ≡ list_length block.now }
{
    let mut len = block.len() as u64;
    let mut left = Entries { left: block };
    while let Some((code, _)) = left.next() {
        // In a list less is before the value.
        len -= HEAD_LEN as u64 - head_len(code);
    }
    len
}

/// Appends the bytes of the entries with lesser codes. The answer is the entries with greater ones.
fn push_below<'a>(
    bytes: &mut Bytes,
    entries: Entries<'a>,
    code: Code,
) -> Result<Entries<'a>, Memory>
    ensures { IfOk result (IsPutBetween entries.entry code.0 bytes.old bytes.new) }
{
    let (below, rest) = split_at(&entries, code);
    bytes.push_all(below)?;
    Ok(rest)
}

/// The bytes of the entries with lesser codes, and the entries with greater ones.
fn split_at<'a>(entries: &Entries<'a>, code: Code) -> (&'a [u8], Entries<'a>)
    ensures { IsPutBetween entries.now code.0 [] result.0.now result.1 }
{
    let mut left = entries.same();
    let mut rest = left.same();
    while let Some((other, _)) = left.next() {
        if code.0 < other.0 {
            return (entries.before(&rest), rest);
        }
        if same_code(code, other) {
            return (entries.before(&rest), left);
        }
        rest = left.same();
    }
    (entries.before(&rest), rest)
}

/// Whether both are one code.
pub(crate) fn same_code(one: Code, other: Code) -> bool
    ensures { IsTrue result ↔ one.0 ≡ other.0 }
{
    one.0 == other.0
}

/// Appends the bytes of an entry. A value of 4 GiB or more is refused.
pub(crate) fn push_entry(bytes: &mut Bytes, code: Code, value: &[u8]) -> Result<(), Memory>
    ensures bytes { OnOk result (bytes.new ≡ bytes.old ++ block_entry_bytes (code.0, value.now)) }
    ensures entry { OnOk result (IsBlockEntry (code.0, value.now)) }
{
    if value.len() == 1 {
        return push_small(bytes, code, value[0]);
    }
    if value.len() > u32::MAX as usize {
        return Err(Memory);
    }
    bytes.push_all(&head_of(code, value.len() as u32))?;
    bytes.push_all(value)?;
    Ok(())
}

/// Appends the bytes of an entry whose value is one byte, all at once.
fn push_small(bytes: &mut Bytes, code: Code, value: u8) -> Result<(), Memory>
    ensures bytes { OnOk result (bytes.new ≡ bytes.old ++ block_entry_bytes (code.0, value ∷ [])) }
    ensures entry { OnOk result (IsBlockEntry (code.0, value ∷ [])) }
{
    let word = code.0.to_le_bytes();
    bytes.push_all(&[word[0], word[1], 1, 0, 0, 0, value])?;
    Ok(())
}

/// The bytes of an entry before its value: the code and the value's length.
fn head_of(code: Code, len: u32) -> [u8; HEAD_LEN]
    ensures { result ≡ number_bytes 2 code.0 ++ number_bytes 4 len }
{
    let code = code.0.to_le_bytes();
    let len = len.to_le_bytes();
    [code[0], code[1], len[0], len[1], len[2], len[3]]
}
