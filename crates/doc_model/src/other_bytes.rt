// What is carried along, where one stream has other bytes.
ghost use Rattle.std.specs.Prelude.{◌≡◌, ◌<◌, length, slice_get, IfOk, Some, option_map};
ghost use Rattle.doc_model.specs.Carried.{AreCarriedStreams, with_bytes};
ghost use Rattle.doc_model.specs.OtherBytes.{HasOtherBytes};

use crate::Carried;
use cfb_streams::Streams;
use doc_bits::Memory;
use std::alloc::Global;

impl Carried {
    /// The parts and streams with other bytes of stream `i`. Each stream is copied once.
    pub fn with_stream(self, alloc: Global, i: usize, bytes: &[u8]) -> Result<Carried, Memory>
        requires there { i < length self.streams }
        requires room { AreCarriedStreams (with_bytes self.streams i bytes.now) }
        ensures { IfOk result (HasOtherBytes self i bytes.now) }
    {
        let streams = copy_streams_with(alloc, &self.streams, i, bytes)?;
        let mut carried = self;
        carried.streams = streams;
        Ok(carried)
    }
}

/// A copy of the streams, but for the bytes of stream `i`.
fn copy_streams_with(
    alloc: Global,
    streams: &Streams,
    i: usize,
    bytes: &[u8],
) -> Result<Streams, Memory>
    requires there { i < length streams.now }
    requires room { AreCarriedStreams (with_bytes streams.now i bytes.now) }
    ensures { IfOk result (λ copy. copy ≡ with_bytes streams.now i bytes.now) }
{
    let mut copy = Streams::new(alloc);
    let count = streams.count();
    for k in 0..count {
        let content = bytes_with(streams, i, bytes, k);
        copy.add(streams.name(k), content)?;
    }
    Ok(copy)
}

/// The bytes of stream `k`, or those in their place where it is stream `i`.
fn bytes_with<'a>(streams: &'a Streams, i: usize, bytes: &'a [u8], k: usize) -> &'a [u8]
    requires { k < length streams.now }
    ensures { option_map (λ s. s.bytes) (slice_get (with_bytes streams.now i bytes.now) k) ≡ Some result.now }
{
    if k == i { bytes } else { streams.bytes(k) }
}
