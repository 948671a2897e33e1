// The lists of a document.
ghost use Rattle.std.specs.Prelude.{◌≡◌, ◌<◌, ◌++◌, ◌∷◌, [], length, slice_get, Some, OnOk};

use crate::list_format::ListFormat;
use doc_bits::Memory;
use std::alloc::Global;
use std::marker::Model;

/// The lists of a document.
#[derive(Drop)]
pub(crate) struct ListFormats {
    items: Vec<ListFormat>,
}

impl Model for ListFormats {
    ghost use Rattle.std.specs.Prelude.{List};
    ghost use Rattle.std.specs.Coded.{coded_list};
    ghost use Rattle.list_numbers.specs.declared.list_format.ListFormat.{ListFormat};
    ghost use Rattle.list_numbers.specs.contracts.list_format.ListFormat as list;

    ghost Value = { List ListFormat };

    ghost coded = { coded_list list.the_row.coded };

    ghost view = { λ l. l.items.items };
}

impl ListFormats {
    pub(crate) fn new(alloc: Global) -> ListFormats
        ensures { result ≡ [] }
    {
        ListFormats {
            items: Vec::new(alloc),
        }
    }

    pub(crate) fn len(&self) -> usize
        ensures { result ≡ length self.now }
    {
        self.items.len()
    }

    pub(crate) fn get(&self, i: usize) -> &ListFormat
        requires { i < length self.now }
        ensures { slice_get self.now i ≡ Some result.now }
    {
        &self.items[i]
    }

    pub(crate) fn add(&mut self, list: ListFormat) -> Result<(), Memory>
        ensures { OnOk result (self.new ≡ self.old ++ list ∷ []) }
    {
        self.items.push(list)?;
        Ok(())
    }
}
