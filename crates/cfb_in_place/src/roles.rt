// Whose sectors they are in the file after.
ghost use Rattle.std.specs.Prelude.{◌≡◌, ◌++◌, ◌+◌, ◌^◌, ◌<◌, ◌≤◌, IfOk, length, replicate};
ghost use Rattle.std.specs.List.{range_with_len};
ghost use Rattle.cfb_sectors.specs.Header.{sector_len, fat_sector_count, fat_sectors};
ghost use Rattle.cfb_sectors.specs.Claims.{AreDistinctBelow};
ghost use Rattle.cfb_in_place.specs.Appended.{chain_after};
ghost use Rattle.cfb_in_place.specs.Roles.{AreGiven, ArePartsBelow, AreRoles, part_sectors, sectors_of_parts};
ghost use Rattle.cfb_in_place.specs.Roles.{other_role};

use crate::added::Added;
use crate::chains::Chains;
use crate::tables::old_fats;
use cfb_streams::Layout;
use doc_bits::Memory;
use std::alloc::Global;

/// The parts of the file after in which something changes, and all others.
#[derive(Clone, Copy)]
pub(crate) enum Part {
    Fat,
    MiniFat,
    Directory,
    Grown,
    Fresh,
    Other,
}

/// Whose sector it is, and which of the part's sectors, counted from 0.
#[derive(Clone, Copy)]
pub(crate) struct Role {
    pub(crate) part: Part,
    pub(crate) index: usize,
}

/// Gives these sectors to a part.
fn give(roles: &mut [Role], sectors: &[u32], part: Part)
    requires { AreDistinctBelow (length roles.old) sectors.now }
    ensures { AreGiven roles.old roles.new sectors.now part }
{
    for index in 0..sectors.len() {
        let sector = sectors[index] as usize;
        roles[sector] = Role { part, index };
    }
}

/// Whose each of the sectors after is, of which there are `count`.
pub(crate) fn roles_of(
    alloc: Global,
    old: &[u8],
    layout: &Layout<'_>,
    chains: &Chains<'_>,
    added: &Added,
    count: usize,
) -> Result<Vec<Role>, Memory>
    requires header { sector_len ≤ length old.now }
    requires few { fat_sector_count old.now ≤ 109 }
    requires below { ArePartsBelow count (sectors_of_parts old.now layout.now.parts chains.now added.now) }
    ensures { IfOk result (λ roles.
        AreRoles count (sectors_of_parts old.now layout.now.parts chains.now added.now) roles.items) }
{
    let old_sectors = old_fats(alloc, old)?;
    let fats = row_behind(alloc, &old_sectors, added.fat_from(), added.fat)?;
    let grown = row_behind(alloc, chains.grown, added.from, added.grown)?;
    let fresh = row_behind(alloc, &[], added.fresh_from(), added.fresh)?;
    let mut roles = no_roles(alloc, count)?;
    give_parts(&mut roles, layout, &fats, &grown, &fresh);
    Ok(roles)
}

/// Gives each part its sectors.
fn give_parts(roles: &mut [Role], layout: &Layout<'_>, fats: &[u32], grown: &[u32], fresh: &[u32])
    requires none { roles.old ≡ replicate (length roles.old) other_role }
    requires below { ArePartsBelow (length roles.old) (part_sectors layout.now.parts fats.now grown.now fresh.now) }
    ensures { AreRoles (length roles.old) (part_sectors layout.now.parts fats.now grown.now fresh.now) roles.new }
{
    give(roles, fresh, Part::Fresh);
    give(roles, grown, Part::Grown);
    give(roles, layout.directory(), Part::Directory);
    give(roles, layout.mini_fat(), Part::MiniFat);
    give(roles, fats, Part::Fat);
}

/// Numbers, and behind them so many that follow one another.
fn row_behind(alloc: Global, front: &[u32], from: u32, count: u32) -> Result<Vec<u32>, Memory>
    requires { from + count < 2 ^ 32 }
    ensures { IfOk result (λ numbers. numbers.items ≡ front.now ++ range_with_len from count) }
{
    let mut numbers = Vec::with_capacity(alloc, front.len())?;
    numbers.extend_from_slice(front)?;
    for number in from..from + count {
        numbers.push(number)?;
    }
    Ok(numbers)
}

/// The roles of sectors that no part has.
fn no_roles(alloc: Global, count: usize) -> Result<Vec<Role>, Memory>
    ensures { IfOk result (λ roles. roles.items ≡ replicate count other_role) }
{
    let mut roles = Vec::with_capacity(alloc, count)?;
    for _turn in 0..count {
        roles.push(Role {
            part: Part::Other,
            index: 0,
        })?;
    }
    Ok(roles)
}
