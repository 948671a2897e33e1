// The stories that this profile has no place for.
ghost use Rattle.std.specs.Prelude.{◌≡◌, ◌<◌};
ghost use Rattle.fib_versions.specs.Versions.{further_number};

/// A story behind the header texts: the comments, the endnotes, the text boxes, or those of the headers.
#[derive(Clone, Copy)]
pub enum Further {
    Comments,
    Endnotes,
    TextBoxes,
    HeaderTextBoxes,
}

impl Further {
    /// Its place among them, as they follow one another.
    pub(crate) fn number(self) -> usize
        ensures number { result ≡ further_number self }
        ensures below { result < 4 }
    {
        match self {
            Further::Comments => 0,
            Further::Endnotes => 1,
            Further::TextBoxes => 2,
            Further::HeaderTextBoxes => 3,
        }
    }
}
