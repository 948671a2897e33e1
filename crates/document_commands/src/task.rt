// What is asked of the document of one file, or of the documents of two.
ghost use Rattle.std.specs.Prelude.{◌≡◌, option_map};
ghost use Rattle.document_commands.specs.Tasks.{task_of, pair_task_of, out_of, out_of_two};

use crate::title::Title;

/// What is asked of the document of one file.
#[derive(Drop)]
pub enum Task<'a> {
    /// The main text.
    Text,
    /// How much it has.
    Check,
    /// Its styles and texts.
    Show,
    /// An item of the main text, by its position.
    Props(u32),
    /// Its paragraphs that have a number, or a level in the outline.
    Outline,
    /// Its full save, for a name.
    Full { out: &'a str },
    /// Its title, subject and author.
    Title,
    /// Its full save with this title, for a name.
    Retitle { title: Title<'a>, out: &'a str },
    /// Its text as JSON, for a name.
    Export { out: &'a str },
}

impl<'a> Task<'a> {
    /// The name that bytes are made for.
    pub fn out(&self) -> Option<&'a str>
        ensures { option_map (λ name. name.now) result ≡ out_of (task_of self.now) }
    {
        match self {
            Task::Full { out } => Some(out),
            Task::Retitle { out, .. } => Some(out),
            Task::Export { out } => Some(out),
            Task::Text | Task::Check | Task::Show | Task::Props(_) => None,
            Task::Outline | Task::Title => None,
        }
    }
}

/// What is asked of the documents of two files.
#[derive(Clone, Copy)]
pub enum Pair<'a> {
    /// Whether they are equal.
    Compare,
    /// The full save of the second behind the first, for a name.
    Join { out: &'a str },
}

impl<'a> Pair<'a> {
    /// The name that bytes are made for.
    pub fn out(&self) -> Option<&'a str>
        ensures { option_map (λ name. name.now) result ≡ out_of_two (pair_task_of self.now) }
    {
        match self {
            Pair::Compare => None,
            Pair::Join { out } => Some(out),
        }
    }
}
