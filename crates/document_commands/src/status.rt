// The statuses of a run that what is asked of a file decides.

/// Bytes are no script.
pub const STATUS_SCRIPT: u8 = 7;

/// Bytes are no document as JSON.
pub const STATUS_JSON: u8 = 7;

/// The main text has no such position.
pub const STATUS_POSITION: u8 = 8;

/// An edit of a script is refused.
pub const STATUS_EDIT: u8 = 8;

/// Two documents have too many styles for one.
pub const STATUS_STYLES: u8 = 8;

/// A document that was made breaks a rule.
pub const STATUS_UNSOUND: u8 = 8;

/// A save needs more than a file has.
pub const STATUS_SAVE: u8 = 9;

/// A guard does not allow an edit.
pub const STATUS_GUARD: u8 = 10;

/// Two documents differ.
pub const STATUS_DIFFERENT: u8 = 11;

/// A document has no summary.
pub const STATUS_NO_SUMMARY: u8 = 13;

/// The summary of a document is no property set.
pub const STATUS_WRONG_SUMMARY: u8 = 14;
