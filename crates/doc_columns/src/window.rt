// A text that is a window of columns which other texts share. Contracts see the list of its items.
ghost use Rattle.std.specs.Prelude.{◌≡◌, ◌≤◌, length, map, slice_range, IfOk};
ghost use Rattle.run_lists.specs.Spread.{expanded};
ghost use Rattle.doc_model.specs.Document.{IsFormedText};
ghost use Rattle.doc_columns.specs.Attached.{attached_of};
ghost use Rattle.doc_columns.specs.Walks.{items_in, AreFullParts};
ghost use Rattle.doc_columns.specs.Windows.{in_span, window_items, IsSpan, IsWindow};

use crate::copying::copy_part;
use crate::own::OwnColumns;
use crate::{Attached, Columns, Parts, Walk};
use doc_bits::Memory;
use prop_map::PropMap;
use run_lists::Run;
use std::alloc::Global;
use std::marker::Model;
use std::rc::Rc;

/// Columns that texts share.
#[derive(Drop)]
pub(crate) struct Whole {
    pub(crate) units: Vec<u16>,
    pub(crate) chps: Vec<Run<PropMap>>,
    pub(crate) attachments: Vec<Run<Attached>>,
}

/// Entries of a list, from one to before another.
#[derive(Clone, Copy)]
pub(crate) struct Span {
    pub(crate) from: usize,
    pub(crate) to: usize,
}

/// Which units and runs a window has.
#[derive(Clone, Copy)]
pub(crate) struct Spans {
    pub(crate) units: Span,
    pub(crate) chps: Span,
    pub(crate) attachments: Span,
}

/// A window of columns.
#[derive(Drop)]
pub(crate) struct Window {
    alloc: Global,
    whole: Rc<Whole>,
    spans: Spans,
}

impl Model for Window {
    ghost use Rattle.std.specs.Prelude.{List};
    ghost use Rattle.std.specs.Coded.{coded_list};
    ghost use Rattle.doc_model.specs.declared.item.Item.{Item};
    ghost use Rattle.doc_model.specs.contracts.item.Item as item;
    ghost use Rattle.doc_columns.specs.Windows.{window_items, IsWindow};

    ghost Value = { List Item };

    ghost coded = { coded_list item.the_row.coded };

    ghost view = { λ w. window_items w.whole.value w.spans };

    ghost invariant = { λ w. IsWindow w.whole.value w.spans };
}

impl Window {
    /// The window of these spans.
    pub(crate) fn new(alloc: Global, whole: Rc<Whole>, spans: Spans) -> Window
        requires { IsWindow whole.value spans }
        ensures { result ≡ window_items whole.value spans }
    {
        Window {
            alloc,
            whole,
            spans,
        }
    }

    /// The number of items. Every window is well formed.
    pub(crate) fn len(&self) -> usize
        ensures len { result ≡ length self.now }
        ensures formed { IsFormedText self.now }
    {
        let span = self.spans.units;
        span.to - span.from
    }

    /// The units of the items.
    pub(crate) fn units(&self) -> &[u16]
        ensures { result.now ≡ map (λ item. item.unit) self.now }
    {
        entries(&self.whole.units, self.spans.units)
    }

    /// The runs of their properties.
    pub(crate) fn chps(&self) -> &[Run<PropMap>]
        ensures { expanded result.now ≡ map (λ item. item.chp) self.now }
    {
        entries(&self.whole.chps, self.spans.chps)
    }

    /// The runs of what is beside them.
    pub(crate) fn attachments(&self) -> &[Run<Attached>]
        ensures { expanded result.now ≡ map attached_of self.now }
    {
        entries(&self.whole.attachments, self.spans.attachments)
    }

    /// A copy of the items, which shares their columns.
    pub(crate) fn copy(&self, alloc: Global) -> Result<Window, Memory>
        ensures { IfOk result (λ copy. copy ≡ self.now) }
    {
        Ok(Window {
            alloc,
            whole: self.whole.clone()?,
            spans: self.spans,
        })
    }

    /// The items from `from` to before `to`: all of them share the columns, fewer are copied.
    pub(crate) fn cut(&self, alloc: Global, from: usize, to: usize) -> Result<Columns, Memory>
        requires ordered { from ≤ to }
        requires within { to ≤ length self.now }
        ensures { IfOk result (λ cut. cut ≡ slice_range self.now from to) }
    {
        if from == 0 && to == self.len() {
            return Ok(Columns::from_window(self.copy(alloc)?));
        }
        Ok(Columns::from_own(self.part(alloc, from, to)?))
    }

    /// Columns of the same items that no other text has.
    pub(crate) fn own(&self) -> Result<OwnColumns, Memory>
        ensures { IfOk result (λ own. own ≡ self.now) }
    {
        let own = self.part(self.alloc, 0, self.len())?;
        Ok(own)
    }

    /// Columns of the items from `from` to before `to`. Their maps are shared.
    fn part(&self, alloc: Global, from: usize, to: usize) -> Result<OwnColumns, Memory>
        requires ordered { from ≤ to }
        requires within { to ≤ length self.now }
        ensures { IfOk result (λ part. part ≡ slice_range self.now from to) }
    {
        let _len = self.len();
        let parts = self.parts();
        let part = copy_part(alloc, &parts, Walk::new(), from, to)?;
        Ok(part)
    }

    /// The three columns.
    fn parts(&self) -> Parts<'_>
        ensures parts { AreFullParts result }
        ensures items { items_in result ≡ self.now }
    {
        let _len = self.len();
        Parts {
            units: self.units(),
            chps: self.chps(),
            attachments: self.attachments(),
        }
    }
}

/// The entries of a span.
fn entries<T>(all: &[T], span: Span) -> &[T]
    requires { IsSpan (length all.now) span }
    ensures { result.now ≡ in_span all.now span }
{
    &all[span.from..span.to]
}
