// The status of a run that other programs over files do not have, beside those of files that are not opened.

/// The document needs more sectors than a file has.
pub const STATUS_TOO_LARGE: u8 = 9;
