// A property set as it is decoded: no function after the check reads an offset from bytes.

/// [MS-OLEPS] PropertyIdentifierAndOffset: the id of a property, and where its value begins, in bytes
/// from the beginning of the set.
#[derive(Clone, Copy)]
pub struct PropertyPair {
    pub id: u32,
    pub offset: u32,
}

/// Where the set begins in the stream, its size in bytes, and the number of its pairs.
#[derive(Clone, Copy)]
pub struct SetHead {
    pub begin: u32,
    pub size: u32,
    pub count: u32,
}

/// A property set: its pairs in their order, and their offsets in ascending order.
#[derive(Drop)]
pub struct PropertySet {
    pub begin: u32,
    pub size: u32,
    pub pairs: Vec<PropertyPair>,
    pub offsets: Vec<u32>,
}
