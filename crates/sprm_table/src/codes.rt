/// A sprm: the word that names a property and says what its operand is.
#[derive(Clone, Copy, PartialEq, Eq)]
pub struct Code(pub u16);

/// What a sprm does to a map of properties.
#[derive(Clone, Copy)]
pub enum Class {
    /// Sets its code to its operand.
    Plain,
    /// A value that over a style may turn the style's own round.
    Toggle,
    /// Removes what was set before it.
    Clear,
    /// Names the style.
    Style,
    /// Is not read.
    Refused,
}
