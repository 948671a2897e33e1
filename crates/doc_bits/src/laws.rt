// Laws over the definitions alone.
ghost use Rattle.doc_bits.specs.Number.{NumberIsReadBack};
ghost use Rattle.doc_bits.specs.Plc.{PlcIsReadBack};

/// The number that its bytes spell is the number, wherever they are.
pub fn number_is_read_back()
    ensures { NumberIsReadBack }
{}

/// A printed CP table is one of its CPs and entries.
pub fn plc_is_read_back()
    ensures { PlcIsReadBack }
{}
