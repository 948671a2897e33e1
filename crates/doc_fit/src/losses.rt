// The lines of what is left out of a file, and the marks of stories that are left out.
ghost use Rattle.std.specs.Prelude.{IfOk};
ghost use Rattle.doc_fit.specs.Losses.{HasLiftedStreams};
ghost use Rattle.doc_fit.specs.Opened.{AreFoundLosses};

use crate::list_losses::{add_features, text_losses_of};
use crate::streams::{fib_of, main_stream, table_stream};
use deleted_text::{StoryBegins, story_begins};
use doc_bits::Memory;
use doc_lift::Lifted;
use doc_losses::{Marks, doc_losses};
use loss_report::{LossLines, report};
use std::alloc::Global;

/// What is found in the streams of a file.
#[derive(Drop)]
pub(crate) struct Found {
    pub(crate) losses: LossLines,
    pub(crate) marks: Marks,
    pub(crate) begins: StoryBegins,
}

/// The lines of what is left out of a file, one a feature, the marks of stories that are left out, and where the
/// stories begin.
pub(crate) fn found_in(alloc: Global, lifted: &Lifted) -> Result<Found, Memory>
    requires { HasLiftedStreams lifted.now }
    ensures { IfOk result (AreFoundLosses lifted.now) }
{
    let wd = main_stream(&lifted.outer);
    let fib = fib_of(wd);
    let table = table_stream(&lifted.outer, &fib);
    let mut losses = report(alloc, &lifted.outer, &fib, &lifted.units)?;
    let lists = text_losses_of(alloc, wd, &fib, table)?;
    let others = doc_losses(alloc, &fib, table)?;
    add_features(alloc, &mut losses, &lists)?;
    add_features(alloc, &mut losses, &others)?;
    let marks = Marks::read(alloc, &fib, table)?;
    Ok(Found {
        losses,
        marks,
        begins: story_begins(wd),
    })
}
