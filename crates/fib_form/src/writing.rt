// The written form of a FIB: numbers over zeros.
ghost use Rattle.std.specs.Prelude.{◌≡◌, ◌-◌, ◌<◌, ◌≤◌, ◌++◌, length, take, drop};
ghost use Rattle.doc_bits.specs.Rules.{Hold};
ghost use Rattle.fib_form.specs.Fib.{form_size};
ghost use Rattle.fib_form.specs.FibFields.{fib_fields};
ghost use Rattle.fib_form.specs.FibRules.{fib_rules};
ghost use Rattle.fib_form.specs.FibBytes.{written_fib, written_flags, written_fields, tail_fields, base_saves};
ghost use Rattle.fib_form.specs.FibBytes.{spelled, zeros};

use crate::offsets::*;
use crate::{Fib, Form};
use doc_bits::{put16, put32};

impl Fib {
    /// Writes the FIB over as many of the first bytes as its form has. The rest stays.
    pub fn write(&self, out: &mut [u8])
        requires { form_size self.now.form ≤ length out.old }
        ensures written { out.new ≡ written_fib self.now ++ drop (form_size self.now.form) out.old }
        ensures read_back { Hold (fib_rules out.new) × (fib_fields out.new ≡ self.now) }
    {
        out[..self.form.size()].fill(0);
        self.write_fields(out);
        self.pairs.write(out);
        self.write_tail(out);
    }
}

impl Fib {
    /// Writes the fields before the pairs over zeros.
    fn write_fields(&self, out: &mut [u8])
        requires size { 154 ≤ length out.old }
        requires clear { out.old ≡ zeros 154 ++ drop 154 out.old }
        ensures { out.new ≡ spelled 0 (written_fields self.now) ++ drop 154 out.old }
    {
        put16(out, W_IDENT, IDENT);
        put16(out, N_FIB, NFIB_WORD97);
        put16(out, LID, self.kept.lid);
        put16(out, FLAGS, self.flags());
        put16(out, N_FIB_BACK, NFIB_WORD97);
        put16(out, CSW, CSW_WORD97);
        put16(out, LID_FE, self.kept.lid_fe);
        put16(out, CSLW, CSLW_WORD97);
        put32(out, CB_MAC, self.cb_mac);
        put32(out, CCP_TEXT, self.ccps[0]);
        put32(out, CCP_FTN, self.ccps[1]);
        put32(out, CCP_HDD, self.ccps[2]);
        put16(out, CB_RG_FC_LCB, self.form.pairs());
    }

    /// Writes the fields behind the pairs over zeros that reach to the end of the FIB.
    fn write_tail(&self, out: &mut [u8])
        requires size { form_size self.now.form ≤ length out.old }
        requires clear { drop 898 out.old
            ≡ zeros (form_size self.now.form - 898) ++ drop (form_size self.now.form) out.old }
        ensures { out.new ≡ take 898 out.old ++ (spelled 898 (tail_fields self.now.form self.now.quick_saves)
            ++ drop (form_size self.now.form) out.old) }
    {
        match self.form {
            Form::Early => put16(out, CSW_NEW, CSW_NEW_WORD97),
            Form::Later => {
                put16(out, LATER_CSW_NEW, CSW_NEW_WORD2000);
                put16(out, N_FIB_NEW, NFIB_WORD2000);
                put16(out, C_QUICK_SAVES_NEW, self.quick_saves as u16);
            }
        }
    }

    /// cQuickSaves of the written form.
    fn base_saves(&self) -> u8
        ensures value { result ≡ base_saves self.now.form self.now.quick_saves }
        ensures bound { result < 16 }
    {
        match self.form {
            Form::Early => self.quick_saves,
            Form::Later => MAX_QUICK_SAVES,
        }
    }

    /// The flags of the written form.
    fn flags(&self) -> u16
        ensures { result ≡ written_flags self.now }
    {
        let complex = if self.complex { 1 << F_COMPLEX } else { 0 };
        self.kept.flags
            + complex
            + ((self.base_saves() as u16) << C_QUICK_SAVES)
            + ((self.which_table as u16) << F_WHICH_TBL_STM)
            + (1 << F_EXT_CHAR)
    }
}
