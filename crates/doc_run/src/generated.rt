// The ending of a run that makes a file by the generator.
ghost use Rattle.std.specs.Prelude.{◌≡◌, ◌≤◌, Some, IfOk};
ghost use Rattle.script_run.specs.GeneratedRuns.{most_seed};
ghost use Rattle.document_commands.specs.Replies.{EndsByReply};
ghost use Rattle.doc_run.specs.Generates.{generated_line as generated_of, Generates};

use doc_bits::{Memory, Text};
use document_commands::Reply;
use run_stages::Ending;
use script_run::{Generated, SaveCounts, generate};
use std::alloc::Global;

/// The ending where what the generator makes of a seed is put under a name.
pub(crate) fn generate_under(alloc: Global, seed: u32, out: &str) -> Result<Ending, Memory>
    requires { seed ≤ most_seed }
    ensures { IfOk result (λ e. EndsByReply (Some out.now) (Generates seed) e) }
{
    let reply = generate_reply(alloc, seed)?;
    reply.into_ending(alloc, Some(out))
}

/// What the generator makes of a seed.
fn generate_reply(alloc: Global, seed: u32) -> Result<Reply, Memory>
    requires { seed ≤ most_seed }
    ensures { IfOk result (λ r. Generates seed r) }
{
    let Generated {
        image,
        units,
        paragraphs,
        saves,
    } = generate(alloc, seed)?;
    let text = generated_line(alloc, seed, units, paragraphs, saves)?;
    Ok(Reply::Made { text, bytes: image })
}

/// The line for what the generator made: the items of all texts, the marks of the main text, and the saves of each
/// mode.
fn generated_line(
    alloc: Global,
    seed: u32,
    units: u128,
    paragraphs: usize,
    saves: SaveCounts,
) -> Result<Text, Memory>
    ensures { IfOk result (λ text. text ≡ generated_of seed units paragraphs saves.fast saves.full) }
{
    let SaveCounts { fast, full } = saves;
    let line = format!(in alloc;
        "gen {seed}: units {units} paragraphs {paragraphs} fast {fast} full {full}\n"
    )?;
    Ok(Text::from_string(line))
}
