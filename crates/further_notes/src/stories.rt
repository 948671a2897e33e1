// The stories of which the texts become notes.

/// The further stories of which the texts become notes.
#[derive(Clone, Copy)]
pub enum NotedStories {
    Both,
    Endnotes,
    Comments,
}
