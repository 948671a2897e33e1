// The three stories of a file.
ghost use Rattle.std.specs.Prelude.{◌≡◌, ◌≤◌};
ghost use Rattle.fib_form.specs.FibFields.{AreFibCcps, story_start};
ghost use Rattle.fib_form.specs.Stories.{story_number, story_ccp};

use crate::Fib;

/// A story of a file: the main text, all notes, or all header texts. One note or header text is a `Story` of doc_bits.
#[derive(Clone, Copy)]
pub enum StoryKind {
    Main,
    Notes,
    Heads,
}

impl Fib {
    /// The number of characters of a story.
    pub fn story_len(&self, kind: StoryKind) -> u32
        ensures value { result ≡ story_ccp self.now.ccps kind }
        ensures counts { AreFibCcps self.now.ccps }
    {
        match kind {
            StoryKind::Main => self.ccp(0),
            StoryKind::Notes => self.ccp(1),
            StoryKind::Heads => self.ccp(2),
        }
    }

    /// The CP where a story begins.
    pub fn story_begin(&self, kind: StoryKind) -> u32
        ensures value { result ≡ story_start self.now.ccps (story_number kind) }
        ensures bound { result ≤ 500000 }
    {
        let [main, notes, _heads] = self.ccps;
        match kind {
            StoryKind::Main => 0,
            StoryKind::Notes => main,
            StoryKind::Heads => main + notes,
        }
    }
}
