// The rules on the FIB of any program, checked.
ghost use Rattle.std.specs.Prelude.{◌≡◌, ◌⊎◌, ◌<◌, ◌≤◌, length, MatchResult, IsTrue, ◌↔◌};
ghost use Rattle.doc_bits.specs.Rules.{Hold, IsFirstOffset, LeastOrNone};
ghost use Rattle.fib_form.specs.declared.form.Form.TheVariants.{Early};
ghost use Rattle.fib_form.specs.Fib.{CcpText, Flags, form_size, field_offset};
ghost use Rattle.fib_form.specs.FibRules.{IsHidden};
ghost use Rattle.fib_versions.specs.Versions.{version_size, all_ccp};
ghost use Rattle.fib_versions.specs.VersionRules.{version_rules, IsOpenFib, HasOtherForm, HasWrongLength};

use crate::AnyFib;
use doc_bits::{get16, get32};
use fib_form::{
    CB_RG_FC_LCB, CCP_ATN, CCP_FTN, CCP_HDD, CCP_TEXT, CSLW, CSLW_WORD97, CSW, CSW_WORD97,
    EARLY_SIZE, F_ENCRYPTED, F_GLSY, F_OBFUSCATED, FLAGS, FibFault, IDENT, MAX_CCP, N_FIB,
    PAIR_COUNT, RG_FC_LCB, RULE_FORM, RULE_GLOSSARY, RULE_HIDDEN, RULE_IDENT, RULE_N_FIB,
    RULE_SIZE, RULE_TEXT_LENGTH, W_IDENT, bit_of,
};

/// nFib of the first program that writes this form.
const OLDEST_FIB: u16 = 0x00C0;

/// How many bytes cswNew has, and how many it has with the least that is behind it in later programs.
const CSW_NEW_LEN: usize = 2;

const NEW_LEN: usize = 6;

impl<'a> AnyFib<'a> {
    /// Reads the FIB of a `WordDocument` stream. It takes no memory.
    pub fn read(wd: &'a [u8]) -> Result<AnyFib<'a>, FibFault>
        ensures { MatchResult result
            (λ fib. (fib ≡ wd.now) × Hold (version_rules wd.now))
            (λ fault. IsFirstOffset (version_rules wd.now) fault.rule fault.offset) }
    {
        check(wd)?;
        Ok(AnyFib { wd })
    }
}

/// Names the first broken rule, at its least place.
fn check(wd: &[u8]) -> Result<(), FibFault>
    ensures { MatchResult result
        (λ _. Hold (version_rules wd.now))
        (λ fault. IsFirstOffset (version_rules wd.now) fault.rule fault.offset) }
{
    if is_short(wd) {
        return Err(FibFault {
            rule: RULE_SIZE,
            offset: wd.len() as u32,
        });
    }
    if get16(wd, W_IDENT) != IDENT {
        return Err(fault(RULE_IDENT, W_IDENT));
    }
    if get16(wd, N_FIB) < OLDEST_FIB {
        return Err(fault(RULE_N_FIB, N_FIB));
    }
    if is_hidden(wd) {
        return Err(fault(RULE_HIDDEN, FLAGS));
    }
    if bit_of(get16(wd, FLAGS), F_GLSY) == 1 {
        return Err(fault(RULE_GLOSSARY, FLAGS));
    }
    if let Some(offset) = other_form(wd) {
        return Err(FibFault {
            rule: RULE_FORM,
            offset,
        });
    }
    if has_wrong_length(wd) {
        return Err(fault(RULE_TEXT_LENGTH, CCP_TEXT));
    }
    Ok(())
}

/// Whether the stream is shorter than the early form, or than its own numbers say.
fn is_short(wd: &[u8]) -> bool
    ensures short { IsTrue result ↔ ((length wd.now < form_size Early)
        ⊎ (IsOpenFib wd.now × (length wd.now < version_size wd.now))) }
    ensures bound { IsTrue result → length wd.now < 1048576 }
{
    wd.len() < EARLY_SIZE || (is_open(wd) && is_cut(wd))
}

/// Whether the numbers of the FIB are those of such a program.
fn is_open(wd: &[u8]) -> bool
    requires { form_size Early ≤ length wd.now }
    ensures { IsTrue result ↔ IsOpenFib wd.now }
{
    let flags = get16(wd, FLAGS);
    get16(wd, W_IDENT) == IDENT
        && get16(wd, N_FIB) >= OLDEST_FIB
        && bit_of(flags, F_ENCRYPTED) != 1
        && bit_of(flags, F_OBFUSCATED) != 1
}

/// Whether the stream ends before the pairs and what is behind them do.
fn is_cut(wd: &[u8]) -> bool
    requires { form_size Early ≤ length wd.now }
    ensures cut { IsTrue result ↔ (length wd.now < version_size wd.now) }
    ensures bound { IsTrue result → length wd.now < 1048576 }
{
    let place = RG_FC_LCB + 8 * get16(wd, CB_RG_FC_LCB) as usize;
    wd.len() < place + CSW_NEW_LEN || (get16(wd, place) != 0 && wd.len() < place + NEW_LEN)
}

/// The fault of a rule at an offset.
fn fault(rule: u8, offset: usize) -> FibFault
    requires { offset < 1024 }
    ensures { result ≡ record { rule = rule; offset = offset } }
{
    FibFault {
        rule,
        offset: offset as u32,
    }
}

/// Whether the document is encrypted or obfuscated.
fn is_hidden(wd: &[u8]) -> bool
    requires { form_size Early ≤ length wd.now }
    ensures { IsTrue result ↔ IsHidden wd.now (field_offset Flags) }
{
    let flags = get16(wd, FLAGS);
    bit_of(flags, F_ENCRYPTED) == 1 || bit_of(flags, F_OBFUSCATED) == 1
}

/// The first of csw, cslw and cbRgFcLcb that is that of no such program.
fn other_form(wd: &[u8]) -> Option<u32>
    requires { form_size Early ≤ length wd.now }
    ensures { LeastOrNone (HasOtherForm wd.now) result }
{
    if get16(wd, CSW) != CSW_WORD97 {
        Some(CSW as u32)
    } else if get16(wd, CSLW) != CSLW_WORD97 {
        Some(CSLW as u32)
    } else if (get16(wd, CB_RG_FC_LCB) as usize) < PAIR_COUNT {
        Some(CB_RG_FC_LCB as u32)
    } else {
        None
    }
}

/// Whether there is no main text, or all stories are too long together.
fn has_wrong_length(wd: &[u8]) -> bool
    requires { form_size Early ≤ length wd.now }
    ensures { IsTrue result ↔ HasWrongLength wd.now (field_offset CcpText) }
{
    let main = get32(wd, CCP_TEXT);
    main == 0 || all_ccp(wd) > MAX_CCP
}

/// The number of characters of all seven stories.
fn all_ccp(wd: &[u8]) -> u64
    requires { form_size Early ≤ length wd.now }
    ensures { result ≡ all_ccp wd.now }
{
    let mut all = get32(wd, CCP_TEXT) as u64
        + get32(wd, CCP_FTN) as u64
        + get32(wd, CCP_HDD) as u64;
    for k in 0..4 {
        all += get32(wd, CCP_ATN + 4 * k) as u64;
    }
    all
}
