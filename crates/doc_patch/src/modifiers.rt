// The modifiers of edits, each of which sets one thing.
ghost use Rattle.std.specs.Prelude.{◌≡◌, IfOk};
ghost use Rattle.doc_patch.specs.Modifiers.{property_characters as that_sets, property_paragraphs as that_sets_marks};
ghost use Rattle.doc_patch.specs.Modifiers.{clearing as that_clears, naming_style as that_names};

use doc_bits::Memory;
use prop_map::{Modifier, PropMap};
use std::alloc::Global;

/// The modifier that sets characters.
pub fn property_characters(alloc: Global, set: &PropMap) -> Result<Modifier, Memory>
    ensures { IfOk result (λ made. made ≡ that_sets set.now) }
{
    let mut modifier = Modifier::none(alloc);
    modifier.chp = set.copy(alloc)?;
    Ok(modifier)
}

/// The modifier that clears characters.
pub fn clearing(alloc: Global) -> Modifier
    ensures { result ≡ that_clears }
{
    let mut modifier = Modifier::none(alloc);
    modifier.clear = true;
    modifier
}

/// The modifier that sets paragraphs.
pub fn property_paragraphs(alloc: Global, set: &PropMap) -> Result<Modifier, Memory>
    ensures { IfOk result (λ made. made ≡ that_sets_marks set.now) }
{
    let mut modifier = Modifier::none(alloc);
    modifier.pap = set.copy(alloc)?;
    Ok(modifier)
}

/// The modifier that names a style.
pub fn naming_style(alloc: Global, istd: u16) -> Modifier
    ensures { result ≡ that_names istd }
{
    let mut modifier = Modifier::none(alloc);
    modifier.istd = Some(istd);
    modifier
}
