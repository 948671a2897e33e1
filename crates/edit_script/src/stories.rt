// The words that name the texts of a document.
ghost use Rattle.std.specs.Prelude.{◌≡◌, ◌<◌, ◌↔◌, IsTrue, length, slice_index};
ghost use Rattle.edit_script.specs.Stories.{number_written, number_after, story_with_name};

use doc_bits::Story;

/// `main`, or `note:` or `head:` and a number.
pub(crate) fn story_named(word: &str) -> Option<Story>
    ensures { result ≡ story_with_name word.now }
{
    if word == "main" {
        return Some(Story::Main);
    }
    match number_behind("note:", word) {
        Some(number) => Some(Story::Note(number)),
        None => number_behind("head:", word).map(Story::Head),
    }
}

/// The number that is behind the prefix.
fn number_behind(prefix: &str, word: &str) -> Option<u32>
    ensures { result ≡ number_after prefix.now word.now }
{
    match word.strip_prefix(prefix) {
        None => None,
        Some(digits) => written_number(digits),
    }
}

/// A number as it is written: decimal digits without a sign and without leading zeros.
fn written_number(digits: &str) -> Option<u32>
    ensures { result ≡ number_written digits.now }
{
    if digits.starts_with('+') {
        return None;
    }
    if has_leading_zero(digits) {
        return None;
    }
    digits.parse::<u32>().ok()
}

/// Whether there are more digits after a zero.
fn has_leading_zero(digits: &str) -> bool
    ensures { IsTrue result ↔ (1 < length digits.now) × (slice_index digits.now 0 ≡ 48) }
{
    let digits = digits.as_bytes();
    digits.len() > 1 && digits[0] == b'0'
}
