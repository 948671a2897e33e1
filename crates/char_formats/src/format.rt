// [MS-DOC] Sgc 2: what a reader sees of the properties of a character.

/// Where a character is beside its line.
#[derive(Clone, Copy, PartialEq, Eq)]
pub enum Position {
    Normal,
    /// A superscript.
    Raised,
    /// A subscript.
    Lowered,
}

/// A symbol that is shown in place of a unit: the number of its font in the font table, and its code in that font.
#[derive(Clone, Copy, PartialEq, Eq)]
pub struct Symbol {
    pub font: u16,
    pub code: u16,
}

/// How a character looks, and what else its effective properties say of it.
#[derive(Clone, Copy, PartialEq, Eq)]
pub struct CharFormat {
    pub bold: bool,
    pub italic: bool,
    pub underline: bool,
    /// Struck through, once or twice.
    pub strike: bool,
    pub small_caps: bool,
    pub caps: bool,
    pub position: Position,
    pub hidden: bool,
    /// Its unit represents something else than a character.
    pub special: bool,
    /// It represents the data of a field.
    pub of_field: bool,
    /// It represents an object.
    pub object: bool,
    /// What is shown in its place.
    pub symbol: Option<Symbol>,
    /// The number of its font in the font table, where it is no character of ASCII and of no East Asian script.
    pub font: Option<u16>,
    /// The place in the stream `Data` that the character itself names.
    pub picture: Option<u32>,
}
