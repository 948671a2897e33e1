// The statuses that all programs over files have.

/// The defined output was printed.
pub const STATUS_DONE: u8 = 0;

/// A file breaks a rule.
pub const STATUS_REFUSED: u8 = 1;

/// The words are no command.
pub const STATUS_USAGE: u8 = 2;

/// A name is not there.
pub const STATUS_MISSING: u8 = 3;

/// The shelf failed.
pub const STATUS_SHELF_FAULT: u8 = 4;

/// The sink failed.
pub const STATUS_SINK_FAULT: u8 = 5;

/// There was no memory.
pub const STATUS_MEMORY: u8 = 6;
