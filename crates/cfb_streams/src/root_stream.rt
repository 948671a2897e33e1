// A stream of the root that is read.
ghost use Rattle.std.specs.Prelude.{◌≡◌, MatchOption, option_map};
ghost use Rattle.cfb_streams.specs.Contents.{HasNamed, HasNoNamed, HasChainByLength};

use cfb_directory::same_name;
use std::marker::Model;

/// A stream of the root: its name, its bytes, and its sectors where it has sectors of its own.
#[derive(Drop)]
pub struct RootStream {
    pub(crate) name: Vec<u16>,
    pub(crate) bytes: Vec<u8>,
    pub(crate) chain: Option<Vec<u32>>,
}

impl Model for RootStream {
    ghost use Rattle.std.specs.Prelude.{option_map};
    ghost use Rattle.cfb_streams.specs.Contents.{Stream, HasChainByLength};

    ghost Value = { Stream };

    ghost view = { λ s. record {
      name = s.name.items;
      bytes = s.bytes.items;
      chain = option_map (λ c. c.items) s.chain;
    } };

    ghost invariant = { λ s. HasChainByLength s.bytes.items (option_map (λ c. c.items) s.chain) };
}

impl RootStream {
    /// The units of the name.
    pub(crate) fn name(&self) -> &[u16]
        ensures { result.now ≡ self.now.name }
    {
        &self.name
    }

    /// The bytes.
    pub(crate) fn bytes(&self) -> &[u8]
        ensures { result.now ≡ self.now.bytes }
    {
        &self.bytes
    }

    /// The sectors, where the stream has sectors of its own.
    pub(crate) fn chain(&self) -> Option<&[u32]>
        ensures chain { self.now.chain ≡ option_map (λ c. c.now) result }
        ensures by_length { HasChainByLength self.now.bytes self.now.chain }
    {
        match &self.chain {
            Some(sectors) => Some(sectors),
            None => None,
        }
    }
}

/// The bytes of the stream with the name.
pub(crate) fn find_named<'a>(streams: &'a [RootStream], name: &[u16]) -> Option<&'a [u8]>
    ensures { MatchOption result (HasNoNamed streams.now name.now) (λ bytes. HasNamed streams.now name.now bytes.now) }
{
    for stream in streams {
        if same_name(stream.name(), name) {
            return Some(stream.bytes());
        }
    }
    None
}
