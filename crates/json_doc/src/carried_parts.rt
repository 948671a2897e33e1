// What a document carries along unread, and how it is written.
ghost use Rattle.std.specs.Prelude.{OnOk};
ghost use Rattle.serde_json.specs.Written.{compact_text};
ghost use Rattle.json_values.specs.Out.{Adds};
ghost use Rattle.json_doc.specs.CarriedParts.{carried_json, stream_json, streams_json};

use crate::leaves::{write_part, write_short};
use cfb_streams::Streams;
use doc_bits::Memory;
use json_values::{JsonOut, push_comma, write_bytes, write_units};
use plain_doc::Carried;
use std::alloc::Global;

/// Writes what is carried as an object of eleven keys.
pub(crate) fn write_carried(
    alloc: Global,
    out: &mut JsonOut,
    carried: &Carried,
) -> Result<(), Memory>
    ensures { OnOk result (Adds out.old out.new (compact_text (carried_json carried.now))) }
{
    out.push("{\"assoc\":")?;
    write_part(out, &carried.assoc)?;
    out.push(",\"clsid\":")?;
    write_bytes(out, &carried.clsid)?;
    out.push(",\"dop\":")?;
    write_part(out, &carried.dop)?;
    out.push(",\"flags\":")?;
    write_short(alloc, out, carried.flags)?;
    out.push(",\"fonts\":")?;
    write_part(out, &carried.fonts)?;
    out.push(",\"levels\":")?;
    write_part(out, &carried.levels)?;
    out.push(",\"lfo\":")?;
    write_part(out, &carried.lfo)?;
    out.push(",\"lid\":")?;
    write_short(alloc, out, carried.lid)?;
    out.push(",\"lidfe\":")?;
    write_short(alloc, out, carried.lid_fe)?;
    out.push(",\"lst\":")?;
    write_part(out, &carried.lst)?;
    out.push(",\"streams\":")?;
    write_streams(out, &carried.streams)?;
    out.push("}")
}

/// Writes streams as an array.
fn write_streams(out: &mut JsonOut, streams: &Streams) -> Result<(), Memory>
    ensures { OnOk result (Adds out.old out.new (compact_text (streams_json streams.now))) }
{
    out.push("[")?;
    for i in 0..streams.count() {
        push_comma(out, i > 0)?;
        write_stream(out, streams.name(i), streams.bytes(i))?;
    }
    out.push("]")
}

/// Writes a stream as an array of two.
#[tactic(auto, unfolding(json::specs::Print::escape_byte))]
fn write_stream(out: &mut JsonOut, name: &[u16], bytes: &[u8]) -> Result<(), Memory>
    ensures { OnOk result
        (Adds out.old out.new (compact_text (stream_json (record { name = name.now; bytes = bytes.now })))) }
{
    out.push("[")?;
    write_units(out, name)?;
    out.push(",")?;
    write_bytes(out, bytes)?;
    out.push("]")
}
