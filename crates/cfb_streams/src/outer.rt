// The root of a compound file whose storages are left out, but for their names.
ghost use Rattle.std.specs.Prelude.{◌≡◌, ◌<◌, Some, length, slice_get};

use crate::container::Container;
use doc_bits::Units;
use std::marker::Model;

/// The streams of the root of a compound file, and the names of its storages that have something, in
/// their order.
#[derive(Drop)]
pub struct OuterContainer {
    pub(crate) container: Container,
    pub(crate) storages: Vec<Units>,
}

impl Model for OuterContainer {
    ghost use Rattle.cfb_streams.specs.Contents.{OuterContents};

    ghost Value = { OuterContents };

    ghost view = { λ o. record { container = o.container; storages = o.storages.items } };
}

impl OuterContainer {
    /// The streams of the root.
    pub fn container(&self) -> &Container
        ensures { result.now ≡ self.now.container }
    {
        &self.container
    }

    /// The number of the storages that have something.
    pub fn storage_count(&self) -> usize
        ensures { result ≡ length self.now.storages }
    {
        self.storages.len()
    }

    /// The name of a storage.
    pub fn storage(&self, i: usize) -> &[u16]
        requires { i < length self.now.storages }
        ensures { slice_get self.now.storages i ≡ Some result.now }
    {
        let name = &self.storages[i];
        name.as_slice()
    }
}
