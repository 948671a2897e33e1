use cfb_layout::LayoutFault;
use cfb_streams::CfbFault;
use doc_bits::Memory;
use std::alloc::{AllocError, AllocFailed};
use thiserror::Error;

/// Why a line is refused.
#[derive(Clone, Copy, Debug, Error)]
pub enum RowFault {
    #[error("no such line")]
    NoCommand,
    #[error("a word is missing")]
    WordMissing,
    #[error("a word too many")]
    WordTooMany,
    #[error("no number")]
    NoNumber,
    #[error("a number has 1 to 8 bytes, and room in them")]
    NoWidth,
    #[error("the number or the text has its name already")]
    NameTwice,
    #[error("no text has this name")]
    NoName,
    #[error("no file has this name")]
    NoFile,
    #[error("a place beyond the end of the file")]
    BeyondEnd,
    #[error("the file is not read")]
    NoData,
    #[error("a stream that is not there, or has no room in a container")]
    NoStream,
    #[error("nothing says where what the row prints comes from")]
    NoSource,
    #[error("the row has no document")]
    NoDocument,
    #[error("the document breaks a rule")]
    NotSound,
    #[error("no command of a script")]
    NoScript,
    #[error("the trial and the edit answer otherwise")]
    TwoAnswers,
    #[error("the edit is refused at a place of a file")]
    NoPlace,
    #[error("the session answers otherwise, or its document is another one")]
    OtherSession,
    #[error("what the session saved is not the file of the document")]
    OtherFile,
    #[error("what refused is not what it was")]
    Changed,
    #[error("too much was added since the last save")]
    NoRoom,
    #[error("out of memory")]
    Memory,
    #[error("what is edited is out of memory, and is what it was")]
    Kept,
}

impl From<Memory> for RowFault {
    fn from(_: Memory) -> Self {
        RowFault::Memory
    }
}

impl From<CfbFault> for RowFault {
    fn from(fault: CfbFault) -> Self {
        match fault {
            CfbFault::Memory => RowFault::Memory,
            CfbFault::Rule { .. } => RowFault::NoStream,
        }
    }
}

impl From<LayoutFault> for RowFault {
    fn from(fault: LayoutFault) -> Self {
        match fault {
            LayoutFault::Memory => RowFault::Memory,
            LayoutFault::TooLarge { .. } => RowFault::NoStream,
        }
    }
}

impl From<AllocError> for RowFault {
    fn from(_: AllocError) -> Self {
        RowFault::Memory
    }
}

impl<T: Drop> From<AllocFailed<T>> for RowFault {
    fn from(_: AllocFailed<T>) -> Self {
        RowFault::Memory
    }
}
