ghost use Rattle.std.specs.Prelude.{◌≡◌, ◌+◌, ◌<◌, ◌≤◌, [], ◌∷◌};
ghost use Rattle.std.specs.Prelude.{slice_index, true, false, MatchResult};
ghost use Rattle.fib_form.specs.Fib.{kept_pairs, form_size};
ghost use Rattle.fib_form.specs.FibFields.{listed_pair, text_length, AreFibCcps, ArePairs, IsKeptFlags};

use crate::offsets::MAX_QUICK_SAVES;
use crate::{Form, Pairs, QuickSavesFull};
use std::marker::Model;

/// What a save keeps of a FIB: the languages, and the flags fDot, fReadOnlyRecommended and fFarEast at their places.
#[derive(Clone, Copy)]
pub struct KeptFib {
    pub lid: u16,
    pub lid_fe: u16,
    pub flags: u16,
}

/// A FIB, as far as this profile keeps it.
#[derive(Drop)]
pub struct Fib {
    pub(crate) form: Form,
    pub(crate) kept: KeptFib,
    pub(crate) quick_saves: u8,
    pub(crate) complex: bool,
    pub(crate) which_table: u8,
    pub(crate) cb_mac: u32,
    pub(crate) ccps: [u32; 3],
    pub(crate) pairs: Pairs,
}

impl Model for Fib {
    ghost use Rattle.fib_form.specs.FibFields.{FibFields, IsFib};

    ghost Value = { FibFields };

    ghost view = { λ f. record {
      form = f.form;
      kept = f.kept;
      quick_saves = f.quick_saves;
      complex = f.complex;
      which_table = f.which_table;
      cb_mac = f.cb_mac;
      ccps = f.ccps;
      pairs = f.pairs;
    } };

    ghost invariant = { λ f. IsFib (record {
      form = f.form;
      kept = f.kept;
      quick_saves = f.quick_saves;
      complex = f.complex;
      which_table = f.which_table;
      cb_mac = f.cb_mac;
      ccps = f.ccps;
      pairs = f.pairs;
    }) };
}

impl Fib {
    /// A FIB of that form after a full save: no quick saves, and the table stream is `1Table`. `cb_mac` is in bytes,
    /// `ccps` are the characters of the main text, the notes and the header texts.
    pub fn made(form: Form, kept: KeptFib, cb_mac: u32, ccps: [u32; 3], pairs: &Pairs) -> Fib
        requires flags { IsKeptFlags kept.flags }
        requires counts { AreFibCcps ccps }
        requires pairs { ArePairs pairs.now }
        ensures { result ≡ record {
          form = form;
          kept = kept;
          quick_saves = 0;
          complex = false;
          which_table = 1;
          cb_mac = cb_mac;
          ccps = ccps;
          pairs = pairs.now;
        } }
    {
        Fib {
            form,
            kept,
            quick_saves: 0,
            complex: false,
            which_table: 1,
            cb_mac,
            ccps,
            pairs: pairs.copy(),
        }
    }

    /// The FIB after one more quick save. The form, the languages, the kept flags and the table stream stay.
    pub fn with_quick_save(
        &self,
        cb_mac: u32,
        ccps: [u32; 3],
        pairs: &Pairs,
    ) -> Result<Fib, QuickSavesFull>
        requires counts { AreFibCcps ccps }
        requires pairs { ArePairs pairs.now }
        ensures { MatchResult result
            (λ fib. (self.now.quick_saves < 15) × (fib ≡ record self.now {
              quick_saves = self.now.quick_saves + 1;
              complex = true;
              cb_mac = cb_mac;
              ccps = ccps;
              pairs = pairs.now;
            }))
            (λ _. self.now.quick_saves ≡ 15) }
    {
        if self.quick_saves >= MAX_QUICK_SAVES {
            return Err(QuickSavesFull);
        }
        Ok(Fib {
            form: self.form,
            kept: self.kept,
            quick_saves: self.quick_saves + 1,
            complex: true,
            which_table: self.which_table,
            cb_mac,
            ccps,
            pairs: pairs.copy(),
        })
    }

    /// The form.
    pub fn form(&self) -> Form
        ensures { result ≡ self.now.form }
    {
        self.form
    }

    /// The size of the form in bytes.
    pub fn size(&self) -> u32
        ensures value { result ≡ form_size self.now.form }
        ensures least { 900 ≤ result }
        ensures most { result ≤ 1024 }
    {
        self.form.size() as u32
    }

    /// The number of quick saves in a row, up to 15.
    pub fn quick_saves(&self) -> u8
        ensures { result ≡ self.now.quick_saves }
    {
        self.quick_saves
    }

    /// Whether the last save was a quick save.
    pub fn complex(&self) -> bool
        ensures { result ≡ self.now.complex }
    {
        self.complex
    }

    /// 0 where the table stream is `0Table`, 1 where it is `1Table`.
    pub fn which_table(&self) -> u8
        ensures value { result ≡ self.now.which_table }
        ensures either { result < 2 }
    {
        self.which_table
    }

    /// The language of the document.
    pub fn lid(&self) -> u16
        ensures { result ≡ self.now.kept.lid }
    {
        self.kept.lid
    }

    /// The language of Far East text.
    pub fn lid_fe(&self) -> u16
        ensures { result ≡ self.now.kept.lid_fe }
    {
        self.kept.lid_fe
    }

    /// The flags fDot, fReadOnlyRecommended and fFarEast at their places.
    pub fn kept_flags(&self) -> u16
        ensures value { result ≡ self.now.kept.flags }
        ensures kept { IsKeptFlags result }
    {
        self.kept.flags
    }

    /// The number of bytes of `WordDocument` that have a meaning.
    pub fn cb_mac(&self) -> u32
        ensures { result ≡ self.now.cb_mac }
    {
        self.cb_mac
    }

    /// The number of characters of a story: 0 the main text, 1 the notes, 2 the header texts.
    pub fn ccp(&self, story: usize) -> u32
        requires { story < 3 }
        ensures value { result ≡ slice_index self.now.ccps story }
        ensures counts { AreFibCcps self.now.ccps }
    {
        self.ccps[story]
    }

    /// The place of part `n` in the table stream and its length, in bytes.
    pub fn pair(&self, n: usize) -> (u32, u32)
        requires { n < kept_pairs }
        ensures { result ≡ listed_pair self.now.pairs n }
    {
        self.pairs.get(n)
    }

    /// The number of CPs that the pieces cover.
    pub fn text_len(&self) -> u32
        ensures value { result ≡ text_length self.now.ccps }
        ensures bound { result ≤ 500001 }
    {
        let [main, notes, heads] = self.ccps;
        main + notes + heads + (notes + heads).min(1)
    }
}
