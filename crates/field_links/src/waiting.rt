// Characters of a URL that were made and are not taken yet.
ghost use Rattle.std.specs.Prelude.{◌≡◌, ◌+◌, ◌*◌, ◌<◌, ◌≤◌, [], ◌∷◌, ◌++◌, ◌↔◌, true, false, length, codes};
ghost use Rattle.std.specs.Prelude.{encode_utf8};
ghost use Rattle.std.specs.Prelude.{drop, MatchOption, nat_lt};
ghost use Rattle.std.specs.List.{flat_map};
ghost use Rattle.text_codes.specs.Digits.{byte_text};
ghost use Rattle.field_links.specs.Urls.{anchor_character, hex_text, is_alphanumeric, is_anchor_character};
ghost use Rattle.field_links.specs.Urls.{is_url_character, percent_byte, percent_character, upper_hex_digit};
ghost use Rattle.field_links.specs.Kept.{character_in};

use crate::link_text::Manner;
use std::marker::Model;
use text_codes::hex_digit;

/// The most characters that one character becomes: four bytes of three.
const MAX_WAITING: usize = 12;

/// The last one waits at the front of the array, so that the first one is taken from its end.
#[derive(Drop)]
pub(crate) struct Waiting {
    characters: [char; MAX_WAITING],
    len: usize,
}

impl Model for Waiting {
    ghost use Rattle.std.specs.Prelude.{ℕ, List, ◌≡◌, ◌≤◌, length, take, reverse};

    ghost Value = { List ℕ };

    ghost view = { λ w. reverse (take w.len w.characters) };

    ghost invariant = { λ w. (length w.characters ≡ 12) × (w.len ≤ 12) };
}

impl Waiting {
    /// None.
    pub(crate) fn new() -> Waiting
        ensures { result ≡ [] }
    {
        Waiting {
            characters: ['\0'; MAX_WAITING],
            len: 0,
        }
    }

    /// Those before the name of a bookmark.
    pub(crate) fn before_name() -> Waiting
        ensures { result ≡ codes "bm-" }
    {
        let mut waiting = Waiting::new();
        waiting.push('-');
        waiting.push('m');
        waiting.push('b');
        waiting
    }

    /// Whether none waits.
    pub(crate) fn is_empty(&self) -> bool
        ensures { (result ≡ true) ↔ (self.now ≡ []) }
    {
        self.len == 0
    }

    /// Takes the first one.
    pub(crate) fn pop(&mut self) -> Option<char>
        ensures { MatchOption result ((self.old ≡ []) × (self.new ≡ [])) (λ code. self.old ≡ code ∷ self.new) }
    {
        if self.len == 0 {
            return None;
        }
        self.len -= 1;
        Some(self.characters[self.len])
    }

    /// Lets one more wait, in front of the others.
    pub(crate) fn push(&mut self, character: char)
        requires { length self.old < 12 }
        ensures { self.new ≡ character ∷ self.old }
    {
        self.characters[self.len] = character;
        self.len += 1;
    }

    /// Lets those wait that a character becomes.
    pub(crate) fn put(&mut self, manner: Manner, character: char)
        requires { self.old ≡ [] }
        ensures { self.new ≡ character_in manner character }
    {
        match manner {
            Manner::Percent => self.put_percent(character),
            Manner::Anchor => self.put_anchor(character),
        }
    }

    /// Lets those wait that a character becomes in a URL.
    fn put_percent(&mut self, character: char)
        requires { self.old ≡ [] }
        ensures { self.new ≡ percent_character character }
    {
        let mut block = [0u8; 4];
        let bytes = character.encode_utf8(&mut block).as_bytes();
        let mut left = bytes.len();
        while left > 0 {
            left -= 1;
            self.put_byte(bytes[left]);
        }
    }

    /// A byte in a URL.
    fn put_byte(&mut self, byte: u8)
        requires { length self.old ≤ 9 }
        ensures { self.new ≡ percent_byte byte ++ self.old }
    {
        if is_url_character(byte as u32) {
            self.push(char::from(byte));
            return;
        }
        self.push(char::from(upper_hex_digit(byte % 16)));
        self.push(char::from(upper_hex_digit(byte / 16 % 16)));
        self.push('%');
    }

    /// Lets those wait that a character becomes in the name of an anchor.
    fn put_anchor(&mut self, character: char)
        requires { self.old ≡ [] }
        ensures { self.new ≡ anchor_character character }
    {
        if is_anchor_character(character as u32) {
            self.push(character);
            return;
        }
        self.push('.');
        self.put_hex(character as u32);
        self.push('.');
    }

    /// A number in two digits, or in four.
    fn put_hex(&mut self, number: u32)
        requires small { number < 0x10000 }
        requires room { length self.old ≤ 7 }
        ensures { self.new ≡ hex_text number ++ self.old }
    {
        if number < 256 {
            self.put_digits(number as u8);
            return;
        }
        self.put_digits((number % 256) as u8);
        self.put_digits((number / 256) as u8);
    }

    /// The two digits of a byte.
    fn put_digits(&mut self, byte: u8)
        requires { length self.old ≤ 10 }
        ensures { self.new ≡ byte_text byte ++ self.old }
    {
        self.push(char::from(hex_digit(byte % 16)));
        self.push(char::from(hex_digit(byte / 16)));
    }
}

/// The upper-case hexadecimal digit of a number below 16.
pub fn upper_hex_digit(number: u8) -> u8
    requires { number < 16 }
    ensures { result ≡ upper_hex_digit number }
{
    if number < 10 {
        b'0' + number
    } else {
        b'A' + (number - 10)
    }
}

/// Whether a character represents itself in a URL.
fn is_url_character(code: u32) -> bool
    ensures { result ≡ is_url_character code }
{
    if is_alphanumeric(code) {
        return true;
    }
    match code {
        0x2D | 0x2E | 0x5F | 0x7E | 0x3A | 0x2F | 0x3F | 0x23 | 0x5B | 0x5D | 0x40 | 0x21 | 0x24 =>
            true,
        0x26 | 0x27 | 0x2A | 0x2B | 0x2C | 0x3B | 0x3D | 0x25 => true,
        _ => false,
    }
}

/// Whether a character represents itself in the name of an anchor.
fn is_anchor_character(code: u32) -> bool
    ensures { result ≡ is_anchor_character code }
{
    is_alphanumeric(code) || code == 0x5F || code == 0x2D || (code >= 0xA0 && code != 0xFFFD)
}

/// Whether a character is a letter or a digit of ASCII.
pub fn is_alphanumeric(code: u32) -> bool
    ensures { result ≡ is_alphanumeric code }
{
    (code >= 65 && code <= 90) || (code >= 97 && code <= 122) || (code >= 48 && code <= 57)
}
