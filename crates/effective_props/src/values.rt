// Values, layer by layer, in a map in the making.
ghost use Rattle.std.specs.Prelude.{◌≡◌, OnOk, IfOk};
ghost use Rattle.std.specs.Option.{option_map};
ghost use Rattle.effective_props.specs.Values.{IsEffectiveMap};
ghost use Rattle.effective_props.specs.ValueSteps.{value_laid_over, IsValueOver, IsLayerOver};

use crate::toggles::toggle;
use doc_bits::{Bytes, Memory};
use prop_map::{Draft, PropMap};
use sprm_table::{Class, Code, SPRM_P_CHG_TABS_PAPX, class};
use std::alloc::Global;

/// The effective values of the layers, the first of them at the bottom.
pub(crate) fn values_of(alloc: Global, layers: &[PropMap]) -> Result<PropMap, Memory>
    ensures { IfOk result (IsEffectiveMap layers.now) }
{
    let mut values = Draft::new(alloc);
    for layer in layers {
        lay_all(&mut values, alloc, layer)?;
    }
    values.into_map(alloc)
}

/// Lays each value of a layer over the value so far.
fn lay_all(values: &mut Draft, alloc: Global, layer: &PropMap) -> Result<(), Memory>
    ensures { OnOk result (IsLayerOver layer.now values.old values.new) }
{
    let mut left = layer.entries();
    while let Some((code, value)) = left.next() {
        lay(values, alloc, code, value)?;
    }
    Ok(())
}

/// Lays a value over the value so far.
fn lay(values: &mut Draft, alloc: Global, code: Code, value: &[u8]) -> Result<(), Memory>
    ensures { OnOk result (IsValueOver code.0 value.now values.old values.new) }
{
    if code != SPRM_P_CHG_TABS_PAPX {
        if let Some(made) = over(code, values.get(code), value) {
            let made = Bytes::from_slice(alloc, made)?;
            values.put(code, made)?;
        }
    }
    Ok(())
}

/// What a value makes of the value so far.
fn over<'a>(code: Code, before: Option<&'a [u8]>, value: &'a [u8]) -> Option<&'a [u8]>
    ensures { option_map (λ v. v.now) result ≡ value_laid_over code.0 (option_map (λ v. v.now) before.entry) value.now }
{
    match class(code) {
        Class::Toggle => toggle(before, value),
        Class::Plain | Class::Clear | Class::Style | Class::Refused => Some(value),
    }
}
