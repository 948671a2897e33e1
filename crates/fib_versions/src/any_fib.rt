// The FIB of a stream, of whatever program.
ghost use Rattle.std.specs.Prelude.{◌≡◌, ◌<◌, ◌≤◌, ◌+◌, length, slice_range};
ghost use Rattle.fib_form.specs.Fib.{fib_pair, fib_which_table, table_part};
ghost use Rattle.fib_form.specs.FibFields.{fib_fields};
ghost use Rattle.fib_versions.specs.Versions.{fib_pair_count, further_ccps, further_count, further_start};
ghost use Rattle.fib_versions.specs.Versions.{further_number, early_ccp, all_text_length, pn_next};

use crate::Further;
use doc_bits::{get16, get32};
use fib_form::{
    CB_RG_FC_LCB, CCP_ATN, CCP_FTN, CCP_HDD, CCP_TEXT, F_WHICH_TBL_STM, FLAGS, RG_FC_LCB, bit_of,
};
use std::marker::Model;

pub const PN_NEXT: usize = 8;

/// The FIB that a `WordDocument` stream of Word 97 to Word 2007 begins with. It lends the stream's bytes.
#[derive(Drop)]
pub struct AnyFib<'a> {
    pub(crate) wd: &'a [u8],
}

impl<'a> Model for AnyFib<'a> {
    ghost use Rattle.std.specs.Prelude.{ℕ, List};
    ghost use Rattle.doc_bits.specs.Rules.{Hold};
    ghost use Rattle.fib_versions.specs.VersionRules.{version_rules};

    ghost Value = { List ℕ };

    ghost view = { λ f. f.wd.now };

    ghost invariant = { λ f. Hold (version_rules f.wd.now) };
}

impl<'a> AnyFib<'a> {
    /// The number of pairs: 93 at least.
    pub fn pair_count(&self) -> u16
        ensures { result ≡ fib_pair_count self.now }
    {
        get16(self.wd, CB_RG_FC_LCB)
    }

    /// The place and the length in bytes of what pair `n` names in the table stream.
    pub fn pair(&self, n: u16) -> (u32, u32)
        requires { n < fib_pair_count self.now }
        ensures { result ≡ fib_pair self.now n }
    {
        let place = RG_FC_LCB + 8 * n as usize;
        (get32(self.wd, place), get32(self.wd, place + 4))
    }

    /// What pair `n` names in a table stream, as far as it is there.
    pub fn part<'t>(&self, table: &'t [u8], n: u16) -> &'t [u8]
        requires { n < 93 }
        ensures { result.now ≡ table_part self.now table.now n }
    {
        let place = RG_FC_LCB + 8 * n as usize;
        let from = get32(self.wd, place) as usize;
        let len = get32(self.wd, place + 4) as usize;
        range_in(table, from, from + len)
    }

    /// 0 where the table stream is `0Table`, 1 where it is `1Table`.
    pub fn which_table(&self) -> u8
        ensures value { result ≡ fib_which_table self.now }
        ensures either { result < 2 }
    {
        bit_of(get16(self.wd, FLAGS), F_WHICH_TBL_STM) as u8
    }

    /// The number of characters of the main text, the notes and the header texts.
    pub fn ccps(&self) -> [u32; 3]
        ensures { result ≡ (fib_fields self.now).ccps }
    {
        [
            get32(self.wd, CCP_TEXT),
            get32(self.wd, CCP_FTN),
            get32(self.wd, CCP_HDD),
        ]
    }

    /// The number of characters of a story behind them.
    pub fn further(&self, story: Further) -> u32
        ensures { result ≡ further_count self.now story }
    {
        get32(self.wd, CCP_ATN + 4 * story.number())
    }

    /// The number of characters of the stories between them and a story.
    pub fn further_before(&self, story: Further) -> u32
        ensures value { result ≡ further_ccps self.now (further_number story) }
        ensures room { early_ccp self.now + result + further_count self.now story ≤ 500000 }
        ensures within { result + further_count self.now story ≤ further_ccps self.now 4 }
    {
        let mut before = 0;
        for k in 0..story.number() {
            before += get32(self.wd, CCP_ATN + 4 * k);
        }
        before
    }

    /// The CP at which a story behind them begins.
    pub fn further_start(&self, story: Further) -> u32
        ensures value { result ≡ further_start self.now story }
        ensures bound { result + further_count self.now story ≤ 500000 }
    {
        self.early_ccp() + self.further_before(story)
    }

    /// [MS-DOC] pnNext: the page of the FIB of AutoText, or 0.
    pub fn next_page(&self) -> u16
        ensures { result ≡ pn_next self.now }
    {
        get16(self.wd, PN_NEXT)
    }

    /// The number of CPs that the pieces cover.
    pub fn text_len(&self) -> u32
        ensures value { result ≡ all_text_length self.now }
        ensures bound { result ≤ 500001 }
    {
        let all = self.further_start(Further::HeaderTextBoxes)
            + self.further(Further::HeaderTextBoxes);
        all + (all - get32(self.wd, CCP_TEXT)).min(1)
    }

    /// The number of characters of the main text, the notes and the header texts together.
    fn early_ccp(&self) -> u32
        ensures { result ≡ early_ccp self.now }
    {
        let main = get32(self.wd, CCP_TEXT);
        let notes = get32(self.wd, CCP_FTN);
        let heads = get32(self.wd, CCP_HDD);
        main + notes + heads
    }
}

/// The bytes from one place to before another, as far as there are so many.
fn range_in(bytes: &[u8], from: usize, to: usize) -> &[u8]
    requires { from ≤ to }
    ensures { result.now ≡ slice_range bytes.now from to }
{
    let end = to.min(bytes.len());
    &bytes[from.min(end)..end]
}
