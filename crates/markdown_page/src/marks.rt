// What a page writes of its own: a closed list of markup and tags.
ghost use Rattle.std.specs.Prelude.{◌≡◌};
ghost use Rattle.std.specs.Str.{IsAscii};
ghost use Rattle.markdown_page.specs.Marks.{heading_mark, mark_text, tag_text};

/// Markup of CommonMark, and of tables, strikethrough and footnotes as GFM has them.
#[derive(Clone, Copy)]
pub enum Mark {
    Strong,
    Emphasis,
    Strike,
    /// The front of a reference to a note, and of a note.
    NoteFront,
    ReferenceEnd,
    NoteEnd,
    FirstCell,
    NextCell,
    RowEnd,
    /// Below the row of heads: its front, a column, and its end.
    RuleFront,
    RuleColumn,
    LineEnd,
    BlockEnd,
    /// Before a line inside of a note.
    Indent,
    /// Before an item, for each item that it is in.
    Level,
    Item,
    Heading1,
    Heading2,
    Heading3,
    Heading4,
    Heading5,
    Heading6,
}

/// Tags of HTML, where Markdown has no markup of its own.
#[derive(Clone, Copy)]
pub enum TagName {
    Underline,
    UnderlineEnd,
    Raised,
    RaisedEnd,
    Lowered,
    LoweredEnd,
    LineBreak,
    /// An empty comment: it parts an emphasis from a word that it is in, and from another one.
    Comment,
}

/// The characters of markup.
pub(crate) fn mark_text(mark: Mark) -> &'static [u8]
    ensures is { result.now ≡ mark_text mark }
    ensures ascii { IsAscii result.now }
{
    match mark {
        Mark::Strong => b"**",
        Mark::Emphasis => b"_",
        Mark::Strike => b"~~",
        Mark::NoteFront => b"[^",
        Mark::ReferenceEnd => b"]",
        Mark::NoteEnd => b"]: ",
        Mark::FirstCell => b"| ",
        Mark::NextCell => b" | ",
        Mark::RowEnd => b" |\n",
        Mark::RuleFront => b"|",
        Mark::RuleColumn => b" --- |",
        Mark::LineEnd => b"\n",
        Mark::BlockEnd => b"\n\n",
        Mark::Indent => b"    ",
        Mark::Level => b"  ",
        Mark::Item => b"- ",
        Mark::Heading1 => b"# ",
        Mark::Heading2 => b"## ",
        Mark::Heading3 => b"### ",
        Mark::Heading4 => b"#### ",
        Mark::Heading5 => b"##### ",
        Mark::Heading6 => b"###### ",
    }
}

/// What is between the angles of a tag.
pub(crate) fn tag_text(tag: TagName) -> &'static [u8]
    ensures is { result.now ≡ tag_text tag }
    ensures ascii { IsAscii result.now }
{
    match tag {
        TagName::Underline => b"u",
        TagName::UnderlineEnd => b"/u",
        TagName::Raised => b"sup",
        TagName::RaisedEnd => b"/sup",
        TagName::Lowered => b"sub",
        TagName::LoweredEnd => b"/sub",
        TagName::LineBreak => b"br",
        TagName::Comment => b"!-- --",
    }
}

/// The mark of a heading of this level, from 1; those below the sixth have that of the sixth.
pub(crate) fn heading_mark(level: u8) -> Mark
    ensures { result ≡ heading_mark level }
{
    match level {
        1 => Mark::Heading1,
        2 => Mark::Heading2,
        3 => Mark::Heading3,
        4 => Mark::Heading4,
        5 => Mark::Heading5,
        _ => Mark::Heading6,
    }
}
