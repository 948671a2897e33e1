// Laws over the definitions alone.
ghost use Rattle.doc_show.specs.Laws.{PropertyLinesAreOne};

/// An item of a document has one text of property lines.
pub fn property_lines_are_one()
    ensures { PropertyLinesAreOne }
{}
