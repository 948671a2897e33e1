// The lists of the Prcs that were printed, so that none is printed twice.
ghost use Rattle.std.specs.Prelude.{◌≡◌, OnOk, Option};
ghost use Rattle.piece_table.specs.PrcLists.{prm_of_list, no_prm, PutsPrm};

use doc_bits::Memory;
use std::alloc::Global;
use std::collections::BTreeMap;

/// The Prm of each list that was printed.
#[derive(Drop)]
pub(crate) struct PrcLists {
    pub(crate) prms: BTreeMap<Vec<u8>, u16>,
}

impl PrcLists {
    /// No list was printed.
    pub(crate) fn new(alloc: Global) -> PrcLists
        ensures { prm_of_list result.prms.entries (λ key. key.items) ≡ no_prm }
    {
        PrcLists {
            prms: BTreeMap::new(alloc),
        }
    }

    /// The Prm of a list, if it was printed.
    pub(crate) fn prm(&self, list: &[u8]) -> Option<u16>
        ensures { result ≡ prm_of_list self.now.prms.entries (λ key. key.items) list.now }
    {
        self.prms.get(list).copied()
    }

    /// Keeps the Prm of a list.
    pub(crate) fn put(&mut self, alloc: Global, list: &[u8], prm: u16) -> Result<(), Memory>
        ensures { OnOk result (PutsPrm (prm_of_list self.old.prms.entries (λ key. key.items))
            (prm_of_list self.new.prms.entries (λ key. key.items)) list.now prm) }
    {
        self.prms.insert(Vec::from_slice(alloc, list)?, prm)?;
        Ok(())
    }
}
