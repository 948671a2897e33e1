// One walk for the chains of the FAT and of the mini FAT.
ghost use Rattle.std.specs.Prelude.{◌≡◌, ◌⊎◌, ◌<◌, ◌≤◌, length, slice_index, IfOk};
ghost use Rattle.cfb_sectors.specs.SectorChain.{IsFullPath, last_of};
ghost use Rattle.cfb_sectors.specs.Marks.{IsMarked, IsVisitedSince};
ghost use Rattle.cfb_sectors.specs.Walk.{IsChainWalk};

use crate::marks::Marks;
use doc_bits::Memory;
use std::alloc::Global;
use std::marker::Model;

/// An entry that ends a chain.
pub const ENDOFCHAIN: u32 = 0xFFFF_FFFE;

/// A chain that is to be there: where the field with its start is, the start, the bytes of a sector, and the bytes
/// that it must hold.
#[derive(Drop)]
pub struct Claim {
    pub field: u32,
    pub start: u32,
    pub unit: u32,
    pub size: u32,
}

impl Model for Claim {
    ghost use Rattle.cfb_sectors.specs.Chain.{ChainHead};

    ghost Value = { ChainHead };

    ghost view = { λ c. record { field = c.field; start = c.start; unit = c.unit; size = c.size } };
}

/// A chain, or the place at which it is broken, in bytes from the start of the file.
#[derive(Drop)]
pub enum Chain {
    Found(Vec<u32>),
    Breaks(u32),
}

/// The sectors of a walk, and the number at which it would go on.
#[derive(Drop)]
pub struct Walked {
    pub path: Vec<u32>,
    pub next: u32,
}

/// The path from `start` over sectors that are not marked; they are marked then. The numbers below
/// that of the marks are valid.
pub(crate) fn walk_on(
    alloc: Global,
    entries: &[u32],
    marks: &mut Marks,
    start: u32,
) -> Result<Walked, Memory>
    requires room { length marks.old ≤ length entries.now }
    ensures walk { IfOk result (λ walked.
        IsChainWalk (λ s. slice_index entries.now s) (length marks.old) start walked.next walked.path.items) }
    ensures met { IfOk result (λ walked. IsVisitedSince marks.old marks.new walked.path.items) }
    ensures stops { IfOk result (λ walked. (length marks.old ≤ walked.next) ⊎ IsMarked marks.new walked.next) }
    ensures kept { length marks.new ≡ length marks.old }
{
    let mut path = Vec::new(alloc);
    let mut at = start;
    while (at as usize) < marks.len() && !marks.has(at as usize) {
        marks.meet(at as usize);
        path.push(at)?;
        at = entries[at as usize];
    }
    Ok(Walked { path, next: at })
}

/// The path from `start` as far as it goes: to an entry that is not valid, or that names a sector of the path. The
/// numbers below that of the marks are valid.
pub(crate) fn walk(
    alloc: Global,
    entries: &[u32],
    marks: &mut Marks,
    start: u32,
) -> Result<Vec<u32>, Memory>
    requires room { length marks.old ≤ length entries.now }
    requires starts { start < length marks.old }
    ensures path { IfOk result (λ path.
        IsFullPath (λ s. slice_index entries.now s) (length marks.old) start path.items) }
    ensures short { IfOk result (λ path. length path.items ≤ length marks.old) }
    ensures kept { length marks.new ≡ length marks.old }
{
    marks.begin();
    let walked = walk_on(alloc, entries, marks, start)?;
    Ok(walked.path)
}

/// The last sector of a path.
pub(crate) fn last_sector(path: &[u32]) -> u32
    requires { 0 < length path.now }
    ensures { result ≡ last_of path.now }
{
    path[path.len() - 1]
}
