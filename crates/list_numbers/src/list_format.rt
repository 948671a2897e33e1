// A list.
use crate::levels::Levels;

/// A list, decoded.
#[derive(Drop)]
pub(crate) struct ListFormat {
    /// [MS-DOC] LSTF.lsid.
    pub(crate) number: u32,
    /// [MS-DOC] LSTF.fSimpleList: the list has one level, and else nine.
    pub(crate) simple: bool,
    pub(crate) levels: Levels,
}
