/// What an edit does: its kind, 1 to 14; the items that it adds and removes in all texts; and the
/// style of the paragraph that it begins in, or the style that it changes.
#[derive(Clone, Copy, PartialEq, Eq)]
pub struct Facts {
    pub kind: u8,
    pub units_in: u32,
    pub units_out: u32,
    pub style: u16,
}
