// A page on its way to a sink.
ghost use Rattle.std.specs.Prelude.{◌≡◌, ◌+◌, ◌<◌, ◌≤◌, ◌++◌, [], ◌∷◌, length, take, false, true, OnOk, OnErr};
ghost use Rattle.std.specs.Char.{IsScalar};
ghost use Rattle.std.specs.Fmt.{decimal};
ghost use Rattle.std.specs.List.{All};
ghost use Rattle.std.specs.Str.{IsAscii};
ghost use Rattle.doc_outer.specs.Counts.{CountGoesOn};
ghost use Rattle.doc_outer.specs.Written.{Appends};
ghost use Rattle.page_out.specs.Printed.{FailsIn, Prints, PrintsBytes};

use crate::encoding::encode_front;
use doc_outer::{OutBlock, Sink, SinkFailed};

/// How many bytes are put together.
const BLOCK_LEN: usize = 256;

/// What of a page waits for the sink, and whether the sink failed. Then nothing more is put: who made the page tells of it
/// at its end.
#[derive(Drop)]
pub struct Page {
    pub block: OutBlock,
    pub failed: bool,
}

impl Page {
    /// A page of which nothing was put.
    pub fn new(block: OutBlock) -> Page
        ensures { result ≡ record { block = block; failed = false } }
    {
        Page {
            block,
            failed: false,
        }
    }

    /// Lets the sink take what waits, and tells whether it failed at any time.
    pub fn finish<K: Sink>(self, out: &mut K) -> Result<(), SinkFailed>
        ensures right { OnOk result (self.failed ≡ false) }
        ensures ok { OnOk result (Appends (K.written out.old) (K.written out.new) self.block) }
        ensures fails { OnErr result (self.failed ≡ false → FailsIn K.Sink out.old self out.new []) }
        ensures stays { OnErr result (self.failed ≡ true → K.written out.new ≡ K.written out.old) }
        ensures faults { CountGoesOn (K.faults out.old) (K.faults out.new) }
    {
        if self.failed {
            return Err(SinkFailed);
        }
        let mut block = self.block;
        block.flush(out)
    }

    /// Puts bytes.
    fn push<K: Sink>(&mut self, out: &mut K, bytes: &[u8])
        ensures { PrintsBytes K.Sink out.old self.old out.new self.new bytes.now }
    {
        if self.failed {
            return;
        }
        let taken = self.block.push(out, bytes);
        self.failed = taken.is_err();
    }

    /// Puts ASCII.
    pub fn push_ascii<K: Sink>(&mut self, out: &mut K, bytes: &[u8])
        requires { IsAscii bytes.now }
        ensures { Prints K.Sink out.old self.old out.new self.new bytes.now }
    {
        self.push(out, bytes);
    }

    /// Puts a character.
    pub fn push_char<K: Sink>(&mut self, out: &mut K, code: u32)
        requires { IsScalar code }
        ensures { Prints K.Sink out.old self.old out.new self.new (code ∷ []) }
    {
        let mut bytes = [0u8; 4];
        let character = char::from_u32(code).unwrap();
        let text = character.encode_utf8(&mut bytes);
        self.push(out, text.as_bytes());
    }

    /// Puts units of which each is a character.
    pub fn push_units<K: Sink>(&mut self, out: &mut K, units: &[u16])
        requires { All IsScalar units.now }
        ensures { Prints K.Sink out.old self.old out.new self.new units.now }
    {
        let mut done = 0;
        while done < units.len() {
            done += self.push_front(out, &units[done..]);
        }
    }

    /// Puts one such unit or more, from the front of a list, and counts them.
    fn push_front<K: Sink>(&mut self, out: &mut K, units: &[u16]) -> usize
        requires some { 0 < length units.now }
        requires characters { All IsScalar units.now }
        ensures some { 0 < result }
        ensures inside { result ≤ length units.now }
        ensures text { Prints K.Sink out.old self.old out.new self.new (take result units.now) }
    {
        let mut block = [0u8; BLOCK_LEN];
        let (count, len) = encode_front(units, &mut block);
        self.push(out, &block[..len]);
        count
    }

    /// Puts a number in decimal digits.
    pub fn push_number<K: Sink>(&mut self, out: &mut K, number: u64)
        ensures { Prints K.Sink out.old self.old out.new self.new (decimal number) }
    {
        if number < 10 {
            self.push_digit(out, number);
            return;
        }
        self.push_number(out, number / 10);
        self.push_digit(out, number % 10);
    }

    /// Puts a decimal digit.
    fn push_digit<K: Sink>(&mut self, out: &mut K, digit: u64)
        requires { digit < 10 }
        ensures { Prints K.Sink out.old self.old out.new self.new ((48 + digit) ∷ []) }
    {
        self.push_char(out, (48 + digit) as u32);
    }
}
