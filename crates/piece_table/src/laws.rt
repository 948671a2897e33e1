// Laws over the definitions alone.
ghost use Rattle.piece_table.specs.Clx.{ClxPiecesAreOne};
ghost use Rattle.piece_table.specs.ClxRules.{FirstClxFaultIsLeast};
ghost use Rattle.piece_table.specs.Piece.{FlatLengthIsTotal};
ghost use Rattle.piece_table.specs.Printing.{ClxIsReadBack};

/// The first broken rule is the least of all that are broken, at its least place.
pub fn first_clx_fault_is_least()
    ensures { FirstClxFaultIsLeast }
{}

/// A Clx has one list of pieces at most.
pub fn clx_pieces_are_one()
    ensures { ClxPiecesAreOne }
{}

/// A Clx that was printed is read again as the pieces.
pub fn clx_is_read_back()
    ensures { ClxIsReadBack }
{}

/// The pieces cover one entry a CP.
pub fn flat_length_is_total()
    ensures { FlatLengthIsTotal }
{}
