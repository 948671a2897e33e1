// Laws over the definitions alone.
ghost use Rattle.doc_places.specs.Laws.{EachGlyphHasAPlace};

/// The places of a text have what is shown of it, each once and in order.
pub fn each_glyph_has_a_place()
    ensures { EachGlyphHasAPlace }
{}
