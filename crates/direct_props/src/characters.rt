// The properties that the list of a run makes.
ghost use Rattle.std.specs.Prelude.{drop, IfOk};
ghost use Rattle.sprm_table.specs.Sprm.{IsAcceptedList};
ghost use Rattle.prop_map.specs.Formed.{IsPropertyMap};
ghost use Rattle.fkp_pages.specs.Fkp.{least_list};
ghost use Rattle.fkp_pages.specs.Runs.{run_groups};
ghost use Rattle.direct_props.specs.Direct.{MakesProperties};

use crate::rules::style_len;
use doc_bits::Memory;
use fkp_pages::{PageKind, groups_of_runs};
use prop_map::{Acted, PropMap, act};
use std::alloc::Global;

/// What the list of a run makes of no properties, and the style that its sprms name.
pub(crate) fn properties_of(alloc: Global, kind: PageKind, list: &[u8]) -> Result<Acted, Memory>
    requires { IsAcceptedList (drop (least_list kind) list.now) (run_groups kind) }
    ensures made { IfOk result
        (λ acted. MakesProperties (drop (least_list kind) list.now) (run_groups kind) acted.map acted.istd) }
    ensures formed { IfOk result (λ acted. IsPropertyMap (run_groups kind) acted.map) }
{
    let start = style_len(kind).min(list.len());
    let none = PropMap::new(alloc);
    if start == list.len() {
        return Ok(Acted {
            map: none,
            istd: None,
        });
    }
    let acted = act(alloc, &list[start..], groups_of_runs(kind), &none)?;
    Ok(acted)
}
