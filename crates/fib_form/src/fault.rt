use thiserror::Error;

/// The first broken rule, and its least place in bytes from the start of `WordDocument`.
#[derive(Clone, Copy, Debug, Error)]
#[error("rule {rule} is broken at {offset}")]
pub struct FibFault {
    pub rule: u8,
    pub offset: u32,
}

/// Fifteen quick saves were made in a row.
#[derive(Clone, Copy, Debug, Error)]
#[error("15 quick saves in a row")]
pub struct QuickSavesFull;
