// Laws over the definitions alone.
ghost use Rattle.summary_set.specs.Laws.{WrittenSetIsReadBack, PropertiesAreKept, RetitledTwiceIsOnce};

/// A written set is a property set with the kept bytes and the properties that were written, each value padded.
pub fn written_set_is_read_back()
    ensures { WrittenSetIsReadBack }
{}

/// The stream with another title has the kept bytes and the other properties of the old one.
pub fn properties_are_kept()
    ensures { PropertiesAreKept }
{}

/// A title that is set once more gives the same bytes.
pub fn retitled_twice_is_once()
    ensures { RetitledTwiceIsOnce }
{}
