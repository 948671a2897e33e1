// Which old pieces of a text are written again beside the added ones.
ghost use Rattle.std.specs.Prelude.{◌↔◌, IsTrue};
ghost use Rattle.session_text.specs.WrittenAgain.{SetsMarks, IsAmong};

use prop_map::Modifier;

/// Which pieces of old text are written again.
#[derive(Clone, Copy)]
pub enum OldPieces {
    /// None.
    Kept,
    /// Those whose modifier gives marks a style or properties.
    Marking,
    /// Those that have a modifier.
    Modified,
}

/// Whether a modifier gives marks a style or properties.
fn sets_marks(modifier: &Modifier) -> bool
    ensures { IsTrue result ↔ SetsMarks modifier.now }
{
    modifier.istd.is_some() || !modifier.pap.is_empty()
}

impl OldPieces {
    /// Whether pieces with this modifier are among them.
    pub(crate) fn include(self, modifier: &Modifier) -> bool
        ensures { IsTrue result ↔ IsAmong self modifier.now }
    {
        match self {
            OldPieces::Kept => false,
            OldPieces::Marking => sets_marks(modifier),
            OldPieces::Modified => !modifier.is_none(),
        }
    }
}
