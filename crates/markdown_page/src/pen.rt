// The tokens of a page, as they are printed.
ghost use Rattle.std.specs.Prelude.{◌≡◌, ◌+◌, ◌<◌, [], ◌∷◌, false, true, None, if◌then◌else◌};
ghost use Rattle.std.specs.List.{All};
ghost use Rattle.markdown_page.specs.Runs.{IsPlainCharacter, is_within_line};
ghost use Rattle.std.specs.Char.{IsScalar};
ghost use Rattle.std.specs.Fmt.{decimal};
ghost use Rattle.std.specs.Str.{IsAscii};
ghost use Rattle.markdown_text.specs.declared.line.LineState.TheVariants.{Start};
ghost use Rattle.markdown_text.specs.Lines.{is_special};
ghost use Rattle.markdown_text.specs.Tokens.{Character, Destination, Markup, destination_code, destination_text};
ghost use Rattle.markdown_text.specs.Tokens.{escaped_in_line, escaped_by};
ghost use Rattle.page_out.specs.Printed.{Prints};
ghost use Rattle.markdown_page.specs.declared.pieces.Piece.TheVariants.{Insert, Write};
ghost use Rattle.markdown_page.specs.Pieces.{characters, markup, marks_text, piece_tokens, pieces_tokens};
ghost use Rattle.markdown_page.specs.Pieces.{delimiter_row_text};
ghost use Rattle.markdown_page.specs.Printed.{PutsTokens};

use crate::marks::{Mark, TagName, mark_text, tag_text};
use crate::pieces::{Piece, Pieces};
use doc_outer::{OutBlock, Sink};
use field_links::LinkText;
use markdown_text::{LineState, is_escaped_in_destination};
use page_out::Page;

/// A page on its way to a sink, and where its line is.
#[derive(Drop)]
pub struct Pen {
    pub page: Page,
    pub line: LineState,
}

impl Pen {
    /// A page of which nothing was put.
    pub(crate) fn new(block: OutBlock) -> Pen
        ensures { result ≡ record { page = record { block = block; failed = false }; line = Start } }
    {
        Pen {
            page: Page::new(block),
            line: LineState::Start,
        }
    }

    /// Puts a character, which is escaped where it could be markup.
    pub(crate) fn put_character<K: Sink>(&mut self, out: &mut K, code: u32)
        requires { IsScalar code }
        ensures { PutsTokens K.Sink out.old self.old out.new self.new (Character code ∷ []) }
    {
        self.put_escaped(out, code);
        self.line = self.line.after_character(code);
    }

    /// Puts units that are written as they are within a line, and leave it so.
    pub(crate) fn put_plain<K: Sink>(&mut self, out: &mut K, units: &[u16])
        requires characters { All IsScalar units.now }
        requires within { is_within_line self.old.line ≡ true }
        requires plain { All IsPlainCharacter units.now }
        ensures { PutsTokens K.Sink out.old self.old out.new self.new (characters units.now) }
    {
        self.page.push_units(out, units);
    }

    /// Puts the characters of a character.
    fn put_escaped<K: Sink>(&mut self, out: &mut K, code: u32)
        requires { IsScalar code }
        ensures prints { Prints K.Sink out.old self.old.page out.new self.new.page (escaped_in_line self.old.line code) }
        ensures line { self.new.line ≡ self.old.line }
    {
        match self.line.reference(code) {
            Some(text) => self.page.push_ascii(out, text),
            None => self.put_written(out, code),
        }
    }

    /// Puts a character, behind a reverse solidus where it is special.
    fn put_written<K: Sink>(&mut self, out: &mut K, code: u32)
        requires { IsScalar code }
        ensures prints { Prints K.Sink out.old self.old.page out.new self.new.page
            (escaped_by None (is_special self.old.line code) code) }
        ensures line { self.new.line ≡ self.old.line }
    {
        self.put_solidus(out, self.line.is_special(code));
        self.page.push_char(out, code);
    }

    /// Puts a reverse solidus where it is to be there.
    fn put_solidus<K: Sink>(&mut self, out: &mut K, there: bool)
        ensures prints { Prints K.Sink out.old self.old.page out.new self.new.page (if there then 92 ∷ [] else []) }
        ensures line { self.new.line ≡ self.old.line }
    {
        if there {
            self.page.push_ascii(out, b"\\");
        }
    }

    /// Puts markup.
    fn put_markup<K: Sink>(&mut self, out: &mut K, text: &[u8])
        requires { IsAscii text.now }
        ensures { PutsTokens K.Sink out.old self.old out.new self.new (markup text.now) }
    {
        self.page.push_ascii(out, text);
        self.line = self.line.after_markup(text);
    }

    /// Puts a tag.
    fn put_tag<K: Sink>(&mut self, out: &mut K, tag: TagName)
        ensures { PutsTokens K.Sink out.old self.old out.new self.new (piece_tokens (Insert tag)) }
    {
        self.page.push_ascii(out, b"<");
        self.page.push_ascii(out, tag_text(tag));
        self.page.push_ascii(out, b">");
        self.line = self.line.after_tag();
    }

    /// Puts a number, as markup.
    fn put_number<K: Sink>(&mut self, out: &mut K, number: u64)
        ensures { PutsTokens K.Sink out.old self.old out.new self.new (markup (decimal number)) }
    {
        if number < 10 {
            self.put_digit(out, number);
            return;
        }
        self.put_number(out, number / 10);
        self.put_digit(out, number % 10);
    }

    /// Puts a decimal digit.
    fn put_digit<K: Sink>(&mut self, out: &mut K, digit: u64)
        requires { digit < 10 }
        ensures { PutsTokens K.Sink out.old self.old out.new self.new (markup ((48 + digit) ∷ [])) }
    {
        self.put_markup(out, &[(48 + digit) as u8]);
    }

    /// Puts the line below the heads of so many columns.
    fn put_rule<K: Sink>(&mut self, out: &mut K, columns: usize)
        ensures { PutsTokens K.Sink out.old self.old out.new self.new (markup (delimiter_row_text columns)) }
    {
        self.put_mark(out, Mark::RuleFront);
        self.put_marks(out, Mark::RuleColumn, columns);
        self.put_mark(out, Mark::LineEnd);
    }

    /// Puts a mark so many times.
    fn put_marks<K: Sink>(&mut self, out: &mut K, mark: Mark, count: usize)
        ensures { PutsTokens K.Sink out.old self.old out.new self.new (markup (marks_text mark count)) }
    {
        let mut done = 0;
        while done < count {
            self.put_mark(out, mark);
            done += 1;
        }
    }

    /// Puts a mark.
    fn put_mark<K: Sink>(&mut self, out: &mut K, mark: Mark)
        ensures { PutsTokens K.Sink out.old self.old out.new self.new (piece_tokens (Write mark)) }
    {
        self.put_markup(out, mark_text(mark));
    }

    /// Puts what represents what is not shown, as characters.
    fn put_sign<K: Sink>(&mut self, out: &mut K, text: &[u8])
        requires { IsAscii text.now }
        ensures { PutsTokens K.Sink out.old self.old out.new self.new (characters text.now) }
    {
        for byte in text {
            self.put_character(out, *byte as u32);
        }
    }

    /// Puts a piece.
    pub(crate) fn put_piece<K: Sink>(&mut self, out: &mut K, piece: Piece)
        ensures { PutsTokens K.Sink out.old self.old out.new self.new (piece_tokens piece) }
    {
        match piece {
            Piece::Nothing => {}
            Piece::Write(mark) => self.put_mark(out, mark),
            Piece::Insert(tag) => self.put_tag(out, tag),
            Piece::Space => self.put_character(out, 0x20),
            Piece::Tab => self.put_character(out, 0x09),
            Piece::Number(number) => self.put_number(out, number as u64),
            Piece::Levels(levels) => self.put_marks(out, Mark::Level, levels),
            Piece::Rule(columns) => self.put_rule(out, columns),
            Piece::Picture => self.put_sign(out, b"[picture]"),
            Piece::Object => self.put_sign(out, b"[object]"),
        }
    }

    /// Puts what is before the text of a link.
    pub(crate) fn put_link_front<K: Sink>(&mut self, out: &mut K)
        ensures { PutsTokens K.Sink out.old self.old out.new self.new (Markup 91 ∷ []) }
    {
        self.put_markup(out, b"[");
    }

    /// Puts what is behind it.
    pub(crate) fn put_link_end<K: Sink>(&mut self, out: &mut K, url: LinkText<'_>)
        ensures { PutsTokens K.Sink out.old self.old out.new self.new (Markup 93 ∷ Destination url.entry ∷ []) }
    {
        self.put_markup(out, b"]");
        self.put_destination(out, url);
    }

    /// Puts where a link leads.
    fn put_destination<K: Sink>(&mut self, out: &mut K, url: LinkText<'_>)
        ensures { PutsTokens K.Sink out.old self.old out.new self.new (Destination url.entry ∷ []) }
    {
        self.page.push_ascii(out, b"(");
        self.put_url(out, url);
        self.page.push_ascii(out, b")");
        self.line = LineState::Within;
    }

    /// Puts the characters of a URL.
    fn put_url<K: Sink>(&mut self, out: &mut K, url: LinkText<'_>)
        ensures prints { Prints K.Sink out.old self.old.page out.new self.new.page (destination_text url.entry) }
        ensures line { self.new.line ≡ self.old.line }
    {
        let mut left = url;
        while let Some(character) = left.next_char() {
            self.put_url_character(out, character as u32);
        }
    }

    /// Puts a character of a URL, behind a reverse solidus where it could end it.
    fn put_url_character<K: Sink>(&mut self, out: &mut K, code: u32)
        requires { IsScalar code }
        ensures prints { Prints K.Sink out.old self.old.page out.new self.new.page (destination_code code) }
        ensures line { self.new.line ≡ self.old.line }
    {
        self.put_solidus(out, is_escaped_in_destination(code));
        self.page.push_char(out, code);
    }

    /// Puts pieces.
    pub(crate) fn put_pieces<K: Sink>(&mut self, out: &mut K, pieces: Pieces)
        ensures { PutsTokens K.Sink out.old self.old out.new self.new (pieces_tokens pieces) }
    {
        self.put_piece(out, pieces.first);
        self.put_piece(out, pieces.second);
        self.put_piece(out, pieces.third);
    }
}
