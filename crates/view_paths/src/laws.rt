// Laws over the definitions alone.
ghost use Rattle.view_paths.specs.Laws.{GlyphsStay, PathsNest};

use crate::Element;

/// Each element that is closed is the innermost one that is open, and at the end none is open.
pub fn paths_nest<E: Element, G>()
    ensures { PathsNest E G E.same }
{}

/// What is shown is what the places have, each once and in order.
pub fn glyphs_stay<E: Element, G>()
    ensures { GlyphsStay E G E.same }
{}
