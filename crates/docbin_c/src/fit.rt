// The document of a file of another program, as a file that docbin accepts.
ghost use Rattle.std.specs.Prelude.{◌≡◌, map, IfOk};
ghost use Rattle.docbin_c.specs.Answers.{AnswersFit, IsFitReached, room};
ghost use Rattle.docbin_c.specs.Calls.{file_alone, fit_words, given_files};

use crate::answer::DocbinAnswer;
use crate::given::{FIRST, GivenFiles, OUT};
use crate::serve::hand_over;
use crate::words::words_of;
use doc_bits::Memory;
use docfit_run::ending_of;
use run_stages::Ending;
use std::alloc::Global;

/// The document that a file of Word 97 to 2007 means, as a file that docbin accepts, and what of it is left out.
#[unsafe(no_mangle)]
pub extern "C" fn docbin_fit(
    alloc: Global,
    file: &[u8],
    text: &mut [u8],
    out: &mut [u8],
) -> DocbinAnswer
    ensures { AnswersFit (fit_words 0) (file_alone file.now) result (room text.old text.new) (room out.old out.new) }
{
    hand_over(ending_fitted(alloc, 0, file), text, out)
}

/// Fits a file as `docbin_fit` does, with options: 1 leaves endnotes and comments out.
#[unsafe(no_mangle)]
pub extern "C" fn docbin_fit_with(
    alloc: Global,
    file: &[u8],
    options: u32,
    text: &mut [u8],
    out: &mut [u8],
) -> DocbinAnswer
    ensures { AnswersFit (fit_words options) (file_alone file.now)
        result (room text.old text.new) (room out.old out.new) }
{
    hand_over(ending_fitted(alloc, options, file), text, out)
}

/// The ending of `docfit` with options.
fn ending_fitted(alloc: Global, options: u32, file: &[u8]) -> Result<Ending, Memory>
    ensures { IfOk result (IsFitReached (fit_words options) (file_alone file.now)) }
{
    if options % 2 == 1 {
        return fitted_over(
            alloc,
            &["--plain", FIRST, OUT],
            GivenFiles::one(alloc, file)?,
        );
    }
    fitted_over(alloc, &[FIRST, OUT], GivenFiles::one(alloc, file)?)
}

/// How a run of `docfit` over these words and files ends, before anything is put or printed.
fn fitted_over(alloc: Global, texts: &[&str], files: GivenFiles) -> Result<Ending, Memory>
    ensures { IfOk result (λ e. IsFitReached (map (λ text. text.now) texts.now) (given_files files) e) }
{
    let words = words_of(alloc, texts)?;
    let mut files = files;
    ending_of(alloc, &words, &mut files)
}
