// What a call answers.

/// What a call came to.
#[repr(C)]
pub struct DocbinAnswer {
    /// How long the text is, in bytes.
    pub text_len: u64,
    /// How long the bytes are that the command puts.
    pub bytes_len: u64,
    /// The status of the run.
    pub status: u32,
}
