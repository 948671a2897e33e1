// Laws on documents as JSON.
ghost use Rattle.json_doc.specs.Laws.{JsonFormsAreOne, JsonTextsAreRead, JsonIsShallow, JsonIsReadBack};

/// Well-formed documents with the same value, or with the same text, are the same.
pub fn json_forms_are_one()
    ensures { JsonFormsAreOne }
{}

/// The text of a well-formed document is read as its value.
pub fn json_texts_are_read()
    ensures { JsonTextsAreRead }
{}

/// The value of a document is at most six deep and has no float.
pub fn json_is_shallow()
    ensures { JsonIsShallow }
{}

/// The text of a sound document is read as the document, or memory is refused.
pub fn texts_are_read_back()
    ensures { JsonIsReadBack }
{}
