// Where a line is while it is printed, and how characters are spelled there.
ghost use Rattle.std.specs.Prelude.{◌≡◌, option_map, IfSome};
ghost use Rattle.std.specs.Str.{IsAscii};
ghost use Rattle.markdown_text.specs.Lines.{after_character, after_markup, after_markups, after_special, after_tag};
ghost use Rattle.markdown_text.specs.Lines.{after_text, is_always_special, is_digit, is_name, is_special};
ghost use Rattle.markdown_text.specs.Tokens.{break_reference, is_destination_markup, reference, start_reference};

const COLON: u32 = 0x3A;

/// What is before a place in its line: it decides which characters are markup there.
#[derive(Clone, Copy)]
pub enum LineState {
    /// Nothing but markup, so that a block may begin.
    Start,
    /// Digits alone, which may number an item of a list.
    Digits,
    /// Text.
    Within,
    /// Text that ends with the closing bracket of a link or of a reference to a note.
    Bracket,
    /// Text that ends with a colon, or with one and a name behind it, which another colon would make a picture of.
    Colon,
}

impl LineState {
    /// The reference that represents a character there, in ASCII; none where the character is written, behind a
    /// reverse solidus where it is special.
    pub fn reference(self, code: u32) -> Option<&'static [u8]>
        ensures is { option_map (λ text. text.now) result ≡ reference self code }
        ensures ascii { IfSome result (λ text. IsAscii text.now) }
    {
        match code {
            0x0A | 0x0D => Some(break_reference(code)),
            0x09 | 0x20 => self.start_reference(code),
            _ => None,
        }
    }

    /// The reference of a space or a tab: they are markup where a block may begin.
    fn start_reference(self, code: u32) -> Option<&'static [u8]>
        ensures is { option_map (λ text. text.now) result ≡ start_reference self code }
        ensures ascii { IfSome result (λ text. IsAscii text.now) }
    {
        match self {
            LineState::Start => Some(if code == 0x20 { b"&#32;" } else { b"&#9;" }),
            _ => None,
        }
    }

    /// Whether a character is markup there, unless it is escaped.
    pub fn is_special(self, code: u32) -> bool
        ensures { result ≡ is_special self code }
    {
        if is_always_special(code) {
            return true;
        }
        match self {
            LineState::Start => matches!(code, 0x2B | 0x2D | 0x3D | 0x3A | 0x20 | 0x09),
            LineState::Digits => matches!(code, 0x2E | 0x29),
            LineState::Within => false,
            LineState::Bracket => matches!(code, 0x28 | 0x3A),
            LineState::Colon => code == COLON,
        }
    }

    /// Behind a character of the document.
    pub fn after_character(self, code: u32) -> LineState
        ensures { result ≡ after_character self code }
    {
        match self {
            LineState::Start => {
                if is_digit(code) {
                    LineState::Digits
                } else {
                    LineState::Within
                }
            }
            LineState::Digits => {
                if is_digit(code) {
                    LineState::Digits
                } else {
                    after_text(code)
                }
            }
            LineState::Within => after_text(code),
            LineState::Bracket => LineState::Within,
            LineState::Colon => {
                if is_name(code) {
                    LineState::Colon
                } else {
                    LineState::Within
                }
            }
        }
    }

    /// Behind ASCII that the page itself writes.
    pub fn after_markup(self, text: &[u8]) -> LineState
        ensures { result ≡ after_markups self text.now }
    {
        let mut state = self;
        for byte in text {
            state = state.after_byte(*byte as u32);
        }
        state
    }

    /// Behind a tag.
    pub fn after_tag(self) -> LineState
        ensures { result ≡ after_tag self }
    {
        match self {
            LineState::Bracket | LineState::Colon => LineState::Within,
            state => state,
        }
    }

    /// Behind a byte of ASCII that the page itself writes.
    fn after_byte(self, code: u32) -> LineState
        ensures { result ≡ after_markup self code }
    {
        if self.is_special(code) {
            self.after_special(code)
        } else {
            self.after_character(code)
        }
    }

    /// Behind markup.
    fn after_special(self, code: u32) -> LineState
        ensures { result ≡ after_special self code }
    {
        match code {
            0x0A | 0x0D | 0x7C | 0x2E | 0x29 | 0x3A => LineState::Start,
            0x5D => LineState::Bracket,
            _ => self.after_tag(),
        }
    }
}

/// Whether a character is markup wherever it is.
fn is_always_special(code: u32) -> bool
    ensures { result ≡ is_always_special code }
{
    match code {
        0x0A | 0x0D | 0x5C | 0x60 | 0x2A | 0x5F | 0x5B | 0x5D | 0x3C | 0x3E | 0x26 | 0x7C => true,
        0x7E | 0x24 | 0x23 | 0x21 | 0x5E => true,
        _ => false,
    }
}

fn is_digit(code: u32) -> bool
    ensures { result ≡ is_digit code }
{
    code >= 0x30 && code <= 0x39
}

/// Whether a character is one of a name between colons, which some readers take for a picture.
fn is_name(code: u32) -> bool
    ensures { result ≡ is_name code }
{
    matches!(code, 0x30..=0x39 | 0x41..=0x5A | 0x61..=0x7A | 0x2B | 0x2D)
}

/// Behind a character within text.
fn after_text(code: u32) -> LineState
    ensures { result ≡ after_text code }
{
    if code == COLON {
        LineState::Colon
    } else {
        LineState::Within
    }
}

/// The reference of the end of a line.
fn break_reference(code: u32) -> &'static [u8]
    ensures is { result.now ≡ break_reference code }
    ensures ascii { IsAscii result.now }
{
    if code == 0x0A { b"&#10;" } else { b"&#13;" }
}

/// Whether a character is behind a reverse solidus in the destination of a link.
pub fn is_escaped_in_destination(code: u32) -> bool
    ensures { result ≡ is_destination_markup code }
{
    matches!(code, 0x5C | 0x26 | 0x28 | 0x29)
}
