// The statuses of files that are not opened, beside that of a rule.

/// The file is of another program than Word 97 to 2007.
pub const STATUS_NOT_WORD: u8 = 15;

/// The file is encrypted.
pub const STATUS_ENCRYPTED: u8 = 16;
