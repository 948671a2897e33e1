// Why a file is not opened: of another program, encrypted, or the first of the rules that are left.
ghost use Rattle.std.specs.Prelude.{◌≡◌, ◌↔◌, ◌⊎◌, IsTrue, IfOk};
ghost use Rattle.doc_bits.specs.Places.{IsFirstPlace};
ghost use Rattle.file_rules.specs.Faults.{IsReadFault};
ghost use Rattle.run_stages.specs.Outcomes.{says};
ghost use Rattle.doc_fit.specs.Lines.{encrypted_line as encrypted_of};
ghost use Rattle.doc_fit.specs.Rules.{fit_rules};
ghost use Rattle.doc_fit.specs.Refusals.{HasMainStream, HasOneMain, IsFitRefused, IsVersionIn};
ghost use Rattle.doc_fit.specs.Refusals.{IsVersionOf, IsOtherProgram, IsRefusalStatus};

use crate::lines::{encrypted_line, not_word_line};
use crate::status::{STATUS_ENCRYPTED, STATUS_NOT_WORD};
use crate::streams::main_stream;
use cfb_streams::{Container, OuterContainer};
use doc_bits::{Memory, Text, Where, get16};
use doc_lift::{
    RULE_CHPX_BIN, RULE_CHPX_RUN, RULE_PAPX_BIN, RULE_PAPX_LIST, RULE_PAPX_RUN, ReadFault,
};
use fib_form::{N_FIB, RULE_FORM, RULE_IDENT};
use run_stages::{Ending, STATUS_REFUSED, reason_of_name, rule_broken, why_refused};
use std::alloc::Global;

const RULE_VERSION: u8 = 18;

const RULE_ENCRYPTED: u8 = 19;

/// The rules on the codes of Prcs, characters, paragraphs and styles.
const RULE_PRC_CODES: u8 = 31;

const RULE_CHARACTER_CODES: u8 = 43;

const RULE_PARAGRAPH_CODES: u8 = 48;

const RULE_STYLE_CODES: u8 = 51;

const OTHER_PROGRAM: &str =
    "of Word 95 or older, or of another program: soffice --convert-to doc makes a Word 97 document of it";

const ENCRYPTED: &str = "encrypted: remove the password";

const OTHER_FORM: &str = "damaged: the FIB is that of no program";

const CODES_NOT_SKIPPED: &str =
    "a list of settings that is cut short, or one whose codes are not skipped where it stands: save it anew in the program that made it";

const GAPS_NOT_FILLED: &str =
    "damaged: text whose formatted disk pages are not there, or a part that leaves the table stream: save it anew in the program that made it";

/// [MS-DOC] FibBase: wIdent and nFib, which tell the program that wrote a file.
#[derive(Clone, Copy)]
pub struct FibVersion {
    pub ident: u16,
    pub version: u16,
}

/// The ending of a run over a file that is refused.
pub fn refusal(alloc: Global, name: &str, file: &[u8], fault: ReadFault) -> Result<Ending, Memory>
    requires { IsReadFault (fit_rules file.now) fault }
    ensures { IfOk result (IsFitRefused file.now name.now) }
{
    match fault {
        ReadFault::Refused {
            rule,
            place,
            offset,
        } => refused_at(alloc, name, file, rule, (place, offset)),
        ReadFault::Memory => Err(Memory),
    }
}

/// The ending of a file whose first broken rule this is.
fn refused_at(
    alloc: Global,
    name: &str,
    file: &[u8],
    rule: u8,
    place: (Where, u32),
) -> Result<Ending, Memory>
    requires { IsFirstPlace (fit_rules file.now) rule place }
    ensures { IfOk result (IsFitRefused file.now name.now) }
{
    if tells_program(rule) {
        return other_program(alloc, name, file);
    }
    if rule == RULE_ENCRYPTED {
        return encrypted_ending(alloc, name);
    }
    rule_broken(alloc, name, rule, place, why_not_opened(rule, file))
}

/// Whether a rule is one on the program that wrote a file.
fn tells_program(rule: u8) -> bool
    ensures { IsTrue result ↔ ((rule ≡ 17) ⊎ (rule ≡ 18)) }
{
    rule == RULE_IDENT || rule == RULE_VERSION
}

/// The status of a run over a file that breaks this rule first.
pub fn status_of_rule(rule: u8) -> u8
    ensures { IsRefusalStatus rule result }
{
    if tells_program(rule) {
        return STATUS_NOT_WORD;
    }
    if rule == RULE_ENCRYPTED {
        return STATUS_ENCRYPTED;
    }
    STATUS_REFUSED
}

/// What a file that is not opened is, and what to do, by the rule that it breaks.
pub fn why_not_opened(rule: u8, file: &[u8]) -> &'static str {
    match rule {
        RULE_IDENT | RULE_VERSION => OTHER_PROGRAM,
        RULE_ENCRYPTED => ENCRYPTED,
        RULE_FORM => OTHER_FORM,
        RULE_PRC_CODES | RULE_CHARACTER_CODES | RULE_PARAGRAPH_CODES | RULE_STYLE_CODES => {
            CODES_NOT_SKIPPED
        }
        RULE_CHPX_BIN | RULE_CHPX_RUN | RULE_PAPX_BIN | RULE_PAPX_RUN | RULE_PAPX_LIST => {
            GAPS_NOT_FILLED
        }
        _ => why_refused(rule, file),
    }
}

/// The ending of an encrypted file.
fn encrypted_ending(alloc: Global, name: &str) -> Result<Ending, Memory>
    ensures { IfOk result (λ ending. ending ≡ says 16 (encrypted_of name.now)) }
{
    let text = encrypted_line(alloc, name)?;
    ending_of_name(alloc, name, STATUS_ENCRYPTED, text, ENCRYPTED)
}

/// The ending of a file of another program.
fn other_program(alloc: Global, name: &str, file: &[u8]) -> Result<Ending, Memory>
    requires { HasMainStream file.now }
    ensures { IfOk result (IsOtherProgram file.now name.now) }
{
    let found = version_of(alloc, file)?;
    let text = not_word_line(alloc, name, found.ident, found.version)?;
    ending_of_name(alloc, name, STATUS_NOT_WORD, text, OTHER_PROGRAM)
}

/// The wIdent and the nFib of a file that was refused for one of them.
fn version_of(alloc: Global, file: &[u8]) -> Result<FibVersion, Memory>
    requires { HasMainStream file.now }
    ensures { IfOk result (IsVersionOf file.now) }
{
    match Container::load_outer(alloc, file) {
        Ok(outer) => {
            let found = version_in(&outer);
            drop(outer);
            Ok(found)
        }
        Err(_) => Err(Memory),
    }
}

/// The wIdent and the nFib of a file, by its streams.
fn version_in(outer: &OuterContainer) -> FibVersion
    requires { HasOneMain outer.now.container }
    ensures { IsVersionIn outer.now.container result }
{
    let wd = main_stream(outer);
    FibVersion {
        ident: get16(wd, 0),
        version: get16(wd, N_FIB),
    }
}

/// An ending of this status with its line, and why it is so.
fn ending_of_name(
    alloc: Global,
    name: &str,
    status: u8,
    text: Text,
    why: &str,
) -> Result<Ending, Memory>
    ensures { IfOk result (λ ending. ending ≡ says status text) }
{
    let reason = reason_of_name(alloc, name, why)?;
    Ok(Ending::new(status, text).because(reason))
}
