// Places in a list.

/// Where a unit is: the number of its item, and its place within the item, in units.
#[derive(Clone, Copy)]
pub struct Spot {
    pub item: usize,
    pub within: u32,
}

/// Where an item is: the number of its block, and its place within the block.
#[derive(Clone, Copy)]
pub(crate) struct Place {
    pub(crate) block: usize,
    pub(crate) within: usize,
}

/// Where a unit is: the number of the block of its item, the number of the item in the list, and its place within the
/// item, in units.
#[derive(Clone, Copy)]
pub(crate) struct Found {
    pub(crate) block: usize,
    pub(crate) item: usize,
    pub(crate) within: u32,
}

/// Where a walk is: the number of a block, and how many items are before it.
#[derive(Clone, Copy)]
pub(crate) struct Mark {
    pub(crate) block: usize,
    pub(crate) before: usize,
}
