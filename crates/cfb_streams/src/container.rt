// A compound file, read whole: its streams in the order of their names, and its CLSID.
ghost use Rattle.std.specs.Prelude.{◌≡◌, ◌<◌, IfSome, MatchOption, MatchResult, option_map, length, slice_get};
ghost use Rattle.doc_bits.specs.Rules.{Hold};
ghost use Rattle.cfb_streams.specs.Contents.{HasNamed, HasNoNamed, HasChainByLength};
ghost use Rattle.cfb_streams.specs.Container.{container_rules, outer_rules, HasContents, ListsStorages};
ghost use Rattle.cfb_sectors.specs.Judged.{IsCfbFault};

use crate::CfbFault;
use crate::layout::Layout;
use crate::outer::OuterContainer;
use crate::root_stream::{RootStream, find_named};
use std::alloc::Global;
use std::marker::Model;

/// The streams of the root of a compound file, in the order of their names, and its CLSID.
#[derive(Drop)]
pub struct Container {
    pub(crate) streams: Vec<RootStream>,
    pub(crate) clsid: [u8; 16],
}

impl Model for Container {
    ghost use Rattle.cfb_streams.specs.Contents.{Stream, Contents};

    ghost Value = { Contents };

    ghost view = { λ c. record { streams = c.streams.items; clsid = c.clsid } };
}

impl Container {
    /// Reads a compound file of version 3. Refused is what breaks one of the rules 1 to 14.
    pub fn load(alloc: Global, file: &[u8]) -> Result<Container, CfbFault>
        ensures { MatchResult result
            (λ c. Hold (container_rules file.now) × HasContents file.now c)
            (IsCfbFault (container_rules file.now)) }
    {
        let mut layout = Layout::check(alloc, file)?;
        let loaded = layout.contents(alloc);
        drop(layout);
        loaded
    }

    /// Reads the root of a compound file of version 3, and the names of its storages that have
    /// something. What these have is not read. Refused is what breaks one of the rules 1 to 14 but for rule 10.
    pub fn load_outer(alloc: Global, file: &[u8]) -> Result<OuterContainer, CfbFault>
        ensures { MatchResult result
            (λ o. Hold (outer_rules file.now) × (HasContents file.now o.container × ListsStorages file.now o.storages))
            (IsCfbFault (outer_rules file.now)) }
    {
        let mut layout = Layout::check_outer(alloc, file)?;
        let loaded = layout.outer_contents(alloc);
        drop(layout);
        loaded
    }

    /// The number of streams of the root.
    pub fn count(&self) -> usize
        ensures { result ≡ length self.now.streams }
    {
        self.streams.len()
    }

    /// The name of a stream.
    pub fn name(&self, i: usize) -> &[u16]
        requires { i < length self.now.streams }
        ensures { option_map (λ s. s.name) (slice_get self.now.streams i) ≡ Some result.now }
    {
        let stream = &self.streams[i];
        stream.name()
    }

    /// The bytes of a stream.
    pub fn bytes(&self, i: usize) -> &[u8]
        requires { i < length self.now.streams }
        ensures { option_map (λ s. s.bytes) (slice_get self.now.streams i) ≡ Some result.now }
    {
        let stream = &self.streams[i];
        stream.bytes()
    }

    /// The sectors of a stream, in the order of its bytes. A stream of fewer than 4,096 bytes has
    /// none.
    pub fn chain(&self, i: usize) -> Option<&[u32]>
        requires { i < length self.now.streams }
        ensures chain { option_map (λ s. s.chain) (slice_get self.now.streams i)
            ≡ Some (option_map (λ c. c.now) result) }
        ensures by_length { IfSome (slice_get self.now.streams i)
            (λ s. HasChainByLength s.bytes (option_map (λ c. c.now) result)) }
    {
        let stream = &self.streams[i];
        stream.chain()
    }

    /// The bytes of the stream with the name. ASCII letters are compared by their upper case.
    pub fn stream(&self, name: &[u16]) -> Option<&[u8]>
        ensures { MatchOption result
            (HasNoNamed self.now.streams name.now)
            (λ bytes. HasNamed self.now.streams name.now bytes.now) }
    {
        find_named(&self.streams, name)
    }

    /// The CLSID of the root.
    pub fn clsid(&self) -> [u8; 16]
        ensures { result ≡ self.now.clsid }
    {
        self.clsid
    }
}
