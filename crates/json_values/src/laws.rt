// Laws on texts of JSON.
ghost use Rattle.json_values.specs.Digits.{DigitsAreOne};
ghost use Rattle.json_values.specs.Plain.{PlainTextsAreJson, PlainValuesAreRead, ReadKeysAscend};
ghost use Rattle.json_values.specs.Settings.{PropertiesAreOne};

/// The compact text of a value is read as the value, where its numbers are whole and fit 64 bits and its keys ascend.
pub fn plain_values_are_read()
    ensures { PlainValuesAreRead }
{}

/// The compact text of such a value is its JSON, where its strings and keys are texts.
pub fn plain_texts_are_json()
    ensures { PlainTextsAreJson }
{}

/// Bytes have one value that represents them, and units have one; each is read as what it represents.
pub fn digits_are_one()
    ensures { DigitsAreOne }
{}

/// What is read of a text has each key of an object once, in ascending order.
pub fn read_keys_ascend()
    ensures { ReadKeysAscend }
{}

/// Properties have one value that represents them, and are read from it; its text is read back as the value.
pub fn properties_are_one()
    ensures { PropertiesAreOne }
{}
