// The rules on the FIB and its fields.
ghost use Rattle.std.specs.Prelude.{◌≡◌, ℕ, ◌+◌, ◌*◌, ◌≤◌, ◌<◌, List};
ghost use Rattle.std.specs.Prelude.{length, MatchResult, MatchOption, IsTrue, ◌↔◌};
ghost use Rattle.doc_bits.specs.Rules.{Hold, IsFirstOffset, LeastOrNone, Among, Nowhere};
ghost use Rattle.fib_form.specs.declared.form.Form.TheVariants.{Early, Later};
ghost use Rattle.fib_form.specs.Fib.{CcpText, field_offset, quick_saves_in};
ghost use Rattle.fib_form.specs.Fib.{form_size, fib_form, fib_size, kept_pairs, fib_pair, fib_pairs, bit, kept_flags};
ghost use Rattle.fib_form.specs.FibFields.{fib_fields};
ghost use Rattle.fib_form.specs.FibRules.{fib_rules, IsWrongSize, IsWrongForm, IsWrongTail, HasOtherStory};
ghost use Rattle.fib_form.specs.FibRules.{IsWrongTextLength, HasRefusedPart, IsLongPart};

use crate::offsets::*;
use crate::{Fib, FibFault, Form, KeptFib, Pairs};
use doc_bits::{get16, get32};

pub const RULE_SIZE: u8 = 16;

pub const RULE_IDENT: u8 = 17;

pub const RULE_N_FIB: u8 = 18;

pub const RULE_HIDDEN: u8 = 19;

pub const RULE_GLOSSARY: u8 = 20;

pub const RULE_FORM: u8 = 21;

const RULE_OTHER_STORIES: u8 = 22;

pub const RULE_TEXT_LENGTH: u8 = 23;

const RULE_REFUSED_PARTS: u8 = 24;

impl Fib {
    /// Reads the FIB of a `WordDocument` stream. It takes no memory.
    pub fn read(wd: &[u8]) -> Result<Fib, FibFault>
        ensures { MatchResult result
            (λ fib. Hold (fib_rules wd.now) × (fib ≡ fib_fields wd.now))
            (λ fault. IsFirstOffset (fib_rules wd.now) fault.rule fault.offset) }
    {
        check(wd)?;
        Ok(fields(wd))
    }
}

/// Names the first broken rule, at its least place.
fn check(wd: &[u8]) -> Result<(), FibFault>
    ensures { MatchResult result
        (λ _. Hold (fib_rules wd.now))
        (λ fault. IsFirstOffset (fib_rules wd.now) fault.rule fault.offset) }
{
    if is_short(wd) {
        return Err(fault(RULE_SIZE, wd.len()));
    }
    if get16(wd, W_IDENT) != IDENT {
        return Err(fault(RULE_IDENT, W_IDENT));
    }
    if get16(wd, N_FIB) != NFIB_WORD97 {
        return Err(fault(RULE_N_FIB, N_FIB));
    }
    let flags = get16(wd, FLAGS);
    if bit_of(flags, F_ENCRYPTED) == 1 || bit_of(flags, F_OBFUSCATED) == 1 {
        return Err(fault(RULE_HIDDEN, FLAGS));
    }
    if bit_of(flags, F_GLSY) == 1 {
        return Err(fault(RULE_GLOSSARY, FLAGS));
    }
    if let Some(offset) = wrong_size(wd) {
        return Err(FibFault {
            rule: RULE_FORM,
            offset,
        });
    }
    if let Some(offset) = other_story(wd) {
        return Err(FibFault {
            rule: RULE_OTHER_STORIES,
            offset,
        });
    }
    if has_wrong_length(wd) {
        return Err(fault(RULE_TEXT_LENGTH, CCP_TEXT));
    }
    if let Some(offset) = refused_part(wd) {
        return Err(FibFault {
            rule: RULE_REFUSED_PARTS,
            offset,
        });
    }
    Ok(())
}

/// The form, by the number of pairs.
fn form_of(wd: &[u8]) -> Form
    requires { form_size Early ≤ length wd.now }
    ensures { result ≡ fib_form wd.now }
{
    if get16(wd, CB_RG_FC_LCB) == LATER_PAIRS {
        Form::Later
    } else {
        Form::Early
    }
}

/// Whether the stream is shorter than a FIB of its form.
fn is_short(wd: &[u8]) -> bool
    ensures { IsTrue result ↔ (length wd.now < fib_size wd.now) }
{
    wd.len() < EARLY_SIZE || wd.len() < form_of(wd).size()
}

/// The fault of a rule at an offset.
fn fault(rule: u8, offset: usize) -> FibFault
    requires { offset < 1024 }
    ensures { result ≡ record { rule = rule; offset = offset } }
{
    FibFault {
        rule,
        offset: offset as u32,
    }
}

/// Bit `place` of the flags, counted from the lowest.
pub fn bit_of(flags: u16, place: u32) -> u16
    requires { place < 16 }
    ensures { result ≡ bit place flags }
{
    flags >> place & 1
}

/// The first of csw, cslw, cbRgFcLcb and the numbers behind the pairs that is not that of a form.
fn wrong_size(wd: &[u8]) -> Option<u32>
    requires { fib_size wd.now ≤ length wd.now }
    ensures { LeastOrNone (IsWrongSize wd.now) result }
{
    if get16(wd, CSW) != CSW_WORD97 {
        Some(CSW as u32)
    } else if get16(wd, CSLW) != CSLW_WORD97 {
        Some(CSLW as u32)
    } else {
        wrong_form(wd)
    }
}

/// The number of pairs where it is that of neither form, else the first number behind the pairs that is not that of
/// the form.
fn wrong_form(wd: &[u8]) -> Option<u32>
    requires { fib_size wd.now ≤ length wd.now }
    ensures { LeastOrNone (IsWrongForm wd.now) result }
{
    let pairs = get16(wd, CB_RG_FC_LCB);
    if pairs == EARLY_PAIRS {
        wrong_early_tail(wd)
    } else if pairs == LATER_PAIRS {
        wrong_later_tail(wd)
    } else {
        Some(CB_RG_FC_LCB as u32)
    }
}

/// cswNew of the early form, where it is wrong.
fn wrong_early_tail(wd: &[u8]) -> Option<u32>
    requires { form_size Early ≤ length wd.now }
    ensures { LeastOrNone (IsWrongTail Early wd.now) result }
{
    if get16(wd, CSW_NEW) != CSW_NEW_WORD97 {
        Some(CSW_NEW as u32)
    } else {
        None
    }
}

/// The first wrong one of the later form's numbers behind the pairs.
fn wrong_later_tail(wd: &[u8]) -> Option<u32>
    requires { form_size Later ≤ length wd.now }
    ensures { LeastOrNone (IsWrongTail Later wd.now) result }
{
    if get16(wd, LATER_CSW_NEW) != CSW_NEW_WORD2000 {
        Some(LATER_CSW_NEW as u32)
    } else if get16(wd, N_FIB_NEW) != NFIB_WORD2000 {
        Some(N_FIB_NEW as u32)
    } else if get16(wd, C_QUICK_SAVES_NEW) > MAX_QUICK_SAVES as u16 {
        Some(C_QUICK_SAVES_NEW as u32)
    } else {
        None
    }
}

/// The first count of another story that is not 0.
fn other_story(wd: &[u8]) -> Option<u32>
    requires { form_size Early ≤ length wd.now }
    ensures { LeastOrNone (Among 4 (HasOtherStory wd.now)) result }
{
    for k in 0..4 {
        let place = CCP_ATN + 4 * k;
        if get32(wd, place) != 0 {
            return Some(place as u32);
        }
    }
    None
}

/// Whether there is no main text, or the three stories are too long.
fn has_wrong_length(wd: &[u8]) -> bool
    requires { form_size Early ≤ length wd.now }
    ensures { IsTrue result ↔ IsWrongTextLength wd.now (field_offset CcpText) }
{
    let main = get32(wd, CCP_TEXT);
    let notes = get32(wd, CCP_FTN);
    let heads = get32(wd, CCP_HDD);
    main == 0 || main as u64 + notes as u64 + heads as u64 > MAX_CCP
}

/// The first pair of a part that this profile refuses.
fn refused_part(wd: &[u8]) -> Option<u32>
    requires { form_size Early ≤ length wd.now }
    ensures { LeastOrNone (HasRefusedPart wd.now) result }
{
    if is_long(wd, PLC_SPA_MOM, MAX_PLC) {
        Some(pair_place(PLC_SPA_MOM))
    } else if is_long(wd, PLC_SPA_HDR, MAX_PLC) {
        Some(pair_place(PLC_SPA_HDR))
    } else if is_long(wd, PLCFEND_REF, MAX_PLC) {
        Some(pair_place(PLCFEND_REF))
    } else {
        None
    }
}

/// Whether a part has more than `most` bytes.
fn is_long(wd: &[u8], n: usize, most: u32) -> bool
    requires size { form_size Early ≤ length wd.now }
    requires pair { n < kept_pairs }
    ensures { IsTrue result ↔ (most < (fib_pair wd.now n).1) }
{
    get32(wd, RG_FC_LCB + 8 * n + 4) > most
}

/// The offset of a pair.
fn pair_place(n: usize) -> u32
    requires { n < kept_pairs }
    ensures { result ≡ 154 + 8 * n }
{
    (RG_FC_LCB + 8 * n) as u32
}

impl KeptFib {
    /// What is kept of the FIB of a `WordDocument` stream.
    pub fn of(wd: &[u8]) -> KeptFib
        requires { form_size Early ≤ length wd.now }
        ensures { result ≡ (fib_fields wd.now).kept }
    {
        KeptFib {
            lid: get16(wd, LID),
            lid_fe: get16(wd, LID_FE),
            flags: kept_of(get16(wd, FLAGS)),
        }
    }
}

/// The fields that are kept.
fn fields(wd: &[u8]) -> Fib
    requires { Hold (fib_rules wd.now) }
    ensures { result ≡ fib_fields wd.now }
{
    let flags = get16(wd, FLAGS);
    let form = form_of(wd);
    Fib {
        form,
        kept: KeptFib::of(wd),
        quick_saves: quick_saves_of(wd, form),
        complex: bit_of(flags, F_COMPLEX) == 1,
        which_table: bit_of(flags, F_WHICH_TBL_STM) as u8,
        cb_mac: get32(wd, CB_MAC),
        ccps: [get32(wd, CCP_TEXT), get32(wd, CCP_FTN), get32(wd, CCP_HDD)],
        pairs: pairs(wd),
    }
}

/// The number of quick saves in a row.
fn quick_saves_of(wd: &[u8], form: Form) -> u8
    requires size { form_size form ≤ length wd.now }
    requires bound { quick_saves_in form wd.now < 16 }
    ensures { result ≡ quick_saves_in form wd.now }
{
    match form {
        Form::Early => ((get16(wd, FLAGS) >> C_QUICK_SAVES) % 16) as u8,
        Form::Later => get16(wd, C_QUICK_SAVES_NEW) as u8,
    }
}

/// The flags that are kept, at their places.
fn kept_of(flags: u16) -> u16
    ensures { result ≡ kept_flags flags }
{
    bit_of(flags, F_DOT)
        + (bit_of(flags, F_READ_ONLY_RECOMMENDED) << F_READ_ONLY_RECOMMENDED)
        + (bit_of(flags, F_FAR_EAST) << F_FAR_EAST)
}

/// All pairs.
fn pairs(wd: &[u8]) -> Pairs
    requires { form_size Early ≤ length wd.now }
    ensures { result ≡ fib_pairs wd.now }
{
    let mut pairs = Pairs::new();
    for n in 0..PAIR_COUNT {
        let place = RG_FC_LCB + 8 * n;
        pairs.put(n, get32(wd, place), get32(wd, place + 4));
    }
    pairs
}
