// What is before a paragraph of a page.
ghost use Rattle.std.specs.Prelude.{◌≡◌, [], ◌∷◌, ◌++◌, codes, false, if◌then◌else◌};
ghost use Rattle.std.specs.Fmt.{decimal};
ghost use Rattle.doc_view.specs.Notes.{note_label};
ghost use Rattle.doc_view.specs.Headers.{header_kind, header_title};
ghost use Rattle.doc_view.specs.declared.line.Title.TheVariants as title;
ghost use Rattle.doc_view.specs.Layout.{front_at, inner_front, line_front, tab_front};
ghost use Rattle.doc_view.specs.Lines.{lead_text, line_after, title_text};
ghost use Rattle.page_out.specs.Printed.{Prints};

use crate::Standing;
use doc_outer::Sink;
use page_out::Page;

/// [MS-DOC] PlcfHdd: the header texts of a section.
const SECTION_TEXTS: usize = 6;

/// What a text is called: nothing, the label of a note with this number, or the name of the header text with this
/// number.
#[derive(Clone, Copy)]
pub(crate) enum Title {
    Bare,
    Note(u32),
    Header(usize),
}

impl Title {
    /// That of a note with this number, or without one.
    pub(crate) fn of_note(number: Option<u32>) -> Title
        ensures { title_text result ≡ note_label number }
    {
        match number {
            None => Title::Bare,
            Some(number) => Title::Note(number),
        }
    }
}

/// What is before a text: an empty line, and its title.
#[derive(Clone, Copy)]
pub(crate) struct Lead {
    pub(crate) is_apart: bool,
    pub(crate) title: Title,
}

impl Lead {
    /// Nothing.
    pub(crate) fn none() -> Lead
        ensures { result ≡ record { is_apart = false; title = title.Bare } }
    {
        Lead {
            is_apart: false,
            title: Title::Bare,
        }
    }

    /// Puts it.
    fn push<K: Sink>(self, page: &mut Page, out: &mut K)
        ensures { Prints K.Sink out.old page.old out.new page.new (lead_text self) }
    {
        self.push_apart(page, out);
        push_title(page, out, self.title);
    }

    /// Puts the empty line.
    fn push_apart<K: Sink>(self, page: &mut Page, out: &mut K)
        ensures { Prints K.Sink out.old page.old out.new page.new (if self.is_apart then 10 ∷ [] else []) }
    {
        if self.is_apart {
            page.push_ascii(out, b"\n");
        }
    }
}

/// Puts a title.
fn push_title<K: Sink>(page: &mut Page, out: &mut K, title: Title)
    ensures { Prints K.Sink out.old page.old out.new page.new (title_text title) }
{
    match title {
        Title::Bare => {}
        Title::Note(number) => push_numbered(page, out, number),
        Title::Header(number) => push_header(page, out, number),
    }
}

/// Puts the name of the header text with this number.
fn push_header<K: Sink>(page: &mut Page, out: &mut K, number: usize)
    ensures { Prints K.Sink out.old page.old out.new page.new (header_title number) }
{
    page.push_ascii(out, b"[");
    push_kind(page, out, number % SECTION_TEXTS);
    push_section(page, out, number / SECTION_TEXTS);
}

/// Puts which header text of its section it is.
fn push_kind<K: Sink>(page: &mut Page, out: &mut K, kind: usize)
    ensures { Prints K.Sink out.old page.old out.new page.new (header_kind kind) }
{
    match kind {
        0 => page.push_ascii(out, b"even header"),
        1 => page.push_ascii(out, b"odd header"),
        2 => page.push_ascii(out, b"even footer"),
        3 => page.push_ascii(out, b"odd footer"),
        4 => page.push_ascii(out, b"first header"),
        _ => page.push_ascii(out, b"first footer"),
    }
}

/// Puts the number of the section, and the end of the name.
fn push_section<K: Sink>(page: &mut Page, out: &mut K, section: usize)
    ensures { Prints K.Sink out.old page.old out.new page.new
        (codes " of section " ++ (decimal section ++ codes "]\n")) }
{
    page.push_ascii(out, b" of section ");
    page.push_number(out, section as u64);
    page.push_ascii(out, b"]\n");
}

/// Puts the label of a note with a number.
fn push_numbered<K: Sink>(page: &mut Page, out: &mut K, number: u32)
    ensures { Prints K.Sink out.old page.old out.new page.new (91 ∷ [] ++ (decimal number ++ 93 ∷ 32 ∷ [])) }
{
    page.push_ascii(out, b"[");
    page.push_number(out, number as u64);
    page.push_ascii(out, b"] ");
}

/// What of a text is here before a paragraph: something of it, of the paragraph's row, of its cell; and whether the
/// cell is not the first one of its row.
#[derive(Clone, Copy)]
pub(crate) struct Line {
    pub(crate) some: bool,
    pub(crate) in_row: bool,
    pub(crate) in_cell: bool,
    pub(crate) later: bool,
}

impl Line {
    /// At the start of a text.
    pub(crate) fn new() -> Line
        ensures { result ≡ record { some = false; in_row = false; in_cell = false; later = false } }
    {
        Line {
            some: false,
            in_row: false,
            in_cell: false,
            later: false,
        }
    }

    /// Behind one more paragraph, which is here or not.
    pub(crate) fn behind(self, standing: Standing, is_here: bool) -> Line
        ensures { result ≡ line_after self standing is_here }
    {
        let keeps = standing.keeps_row();
        let ends = standing.ends_cell();
        Line {
            some: is_here || self.some,
            in_row: keeps && (is_here || self.in_row),
            in_cell: keeps && !ends && (is_here || self.in_cell),
            later: keeps && (ends || self.later),
        }
    }

    /// Puts what is before a paragraph, in a table or not, of a text with this lead.
    pub(crate) fn push_front<K: Sink>(
        self,
        page: &mut Page,
        out: &mut K,
        lead: Lead,
        in_table: bool,
    )
        ensures { Prints K.Sink out.old page.old out.new page.new (front_at (lead_text lead) self in_table) }
    {
        if in_table {
            self.push_inner(page, out, lead);
        } else {
            self.push_line(page, out, lead);
        }
    }

    /// Puts what is before a line.
    fn push_line<K: Sink>(self, page: &mut Page, out: &mut K, lead: Lead)
        ensures { Prints K.Sink out.old page.old out.new page.new (line_front (lead_text lead) self.some) }
    {
        if self.some {
            page.push_ascii(out, b"\n");
        } else {
            lead.push(page, out);
        }
    }

    /// Puts what is before a paragraph of a table.
    fn push_inner<K: Sink>(self, page: &mut Page, out: &mut K, lead: Lead)
        ensures { Prints K.Sink out.old page.old out.new page.new
            (inner_front (lead_text lead) self) }
    {
        if self.in_cell {
            page.push_ascii(out, b" ");
            return;
        }
        self.push_row(page, out, lead);
        self.push_tab(page, out);
    }

    /// Puts what is before a row.
    fn push_row<K: Sink>(self, page: &mut Page, out: &mut K, lead: Lead)
        ensures { Prints K.Sink out.old page.old out.new page.new
            (if self.in_row then [] else line_front (lead_text lead) self.some) }
    {
        if !self.in_row {
            self.push_line(page, out, lead);
        }
    }

    /// Puts what is before a later cell.
    fn push_tab<K: Sink>(self, page: &mut Page, out: &mut K)
        ensures { Prints K.Sink out.old page.old out.new page.new (tab_front self.later) }
    {
        if self.later {
            page.push_ascii(out, b"\t");
        }
    }

    /// Puts the end of the last line.
    pub(crate) fn push_end<K: Sink>(self, page: &mut Page, out: &mut K)
        ensures { Prints K.Sink out.old page.old out.new page.new (if self.some then 10 ∷ [] else []) }
    {
        if self.some {
            page.push_ascii(out, b"\n");
        }
    }
}
