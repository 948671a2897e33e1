// Lists that are kept as runs.
ghost use Rattle.std.specs.Prelude.{◌≡◌, length, IfOk};

use doc_bits::Memory;
use prop_map::PropMap;
use run_lists::Runs;
use sprm_table::Code;
use std::alloc::Global;
use std::test::Fail;

/// A map with one character property.
fn bold(alloc: Global) -> Result<PropMap, Memory> {
    let mut map = PropMap::new(alloc);
    map.set(Code(0x0835), &[1])?;
    Ok(map)
}

/// Two empty maps and four of one property, of which the last is put apart.
fn six(alloc: Global) -> Result<Runs<PropMap>, Memory>
    ensures { IfOk result (λ list. length list ≡ 6) }
{
    let mut list = Runs::new(alloc);
    list.add(2, PropMap::new(alloc))?;
    list.add(3, bold(alloc)?)?;
    list.add(1, bold(alloc)?)?;
    Ok(list)
}

/// Whether the runs have these counts, and a property or none.
fn are(list: &Runs<PropMap>, expected: &[(u32, bool)]) -> bool {
    let runs = list.as_runs();
    if runs.len() != expected.len() {
        return false;
    }
    for k in 0..runs.len() {
        let (count, set) = expected[k];
        if runs[k].count != count || runs[k].value.is_empty() == set {
            return false;
        }
    }
    true
}

/// Whether equal neighbours are one run.
fn are_joined(alloc: Global) -> Result<bool, Memory> {
    let list = six(alloc)?;
    Ok(are(&list, &[(2, false), (4, true)]))
}

/// Whether a range is copied.
fn is_copied(alloc: Global) -> Result<bool, Memory> {
    let list = six(alloc)?;
    let copy = list.copy(alloc, 1, 4)?;
    Ok(are(&copy, &[(1, false), (2, true)]))
}

/// Whether runs are put in place of a range.
fn are_put(alloc: Global) -> Result<bool, Memory> {
    let fresh = six(alloc)?;
    let mut list = six(alloc)?;
    list.splice(alloc, 1, 3, fresh)?;
    Ok(are(&list, &[(1, false), (2, false), (4, true), (3, true)]))
}

#[test]
fn equal_neighbours_are_one_run(rt: HostRuntime) -> Result<(), Fail> {
    assert!(rt; are_joined(rt.alloc())?);
    Ok(())
}

#[test]
fn a_range_is_copied(rt: HostRuntime) -> Result<(), Fail> {
    assert!(rt; is_copied(rt.alloc())?);
    Ok(())
}

#[test]
fn runs_are_put_in_place_of_a_range(rt: HostRuntime) -> Result<(), Fail> {
    assert!(rt; are_put(rt.alloc())?);
    Ok(())
}
