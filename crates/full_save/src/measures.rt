// What is beside the units of a text, counted run by run.
ghost use Rattle.std.specs.Prelude.{◌≡◌, ◌+◌, ◌*◌, ◌^◌, ◌<◌, ◌≤◌, length, All, sum_by};
ghost use Rattle.run_lists.specs.Spread.{expanded, total_len};
ghost use Rattle.doc_model.specs.Collected.{joined_texts};
ghost use Rattle.doc_columns.specs.Attached.{attached_of};
ghost use Rattle.full_save.specs.declared.measures.Measure.TheVariants.{Fields};
ghost use Rattle.full_save.specs.Sections.{sepx_bytes, IsSavableSection};
ghost use Rattle.full_save.specs.Lengths.{measured, text_measure, IsMeasurable};

use doc_columns::{Attached, ColumnTexts, Columns};
use prop_map::PropMap;
use run_lists::Run;

/// What is counted of a text: its references to notes, its sections, its field characters, or the bytes of its Sepxes.
#[derive(Clone, Copy)]
pub(crate) enum Measure {
    Notes,
    Sections,
    Fields,
    SepxBytes,
}

/// How many units some texts have, and how many of them are field characters.
#[derive(Clone, Copy)]
pub(crate) struct TextsMeasure {
    pub(crate) units: u64,
    pub(crate) fields: u64,
}

/// What a text counts.
pub(crate) fn measure_of(text: &Columns, measure: Measure) -> u64
    requires { All (λ item. IsMeasurable measure (attached_of item)) text.now }
    ensures is { result ≡ text_measure measure text.now }
    ensures bound { result ≤ 503 * length text.now }
{
    let _len = text.len();
    runs_measure(text.attachments(), measure)
}

/// What texts count together.
pub(crate) fn measure_of_texts(texts: &ColumnTexts) -> TextsMeasure
    requires { length (joined_texts texts.now) < 2 ^ 32 }
    ensures is { result ≡ record {
      units = length (joined_texts texts.now);
      fields = text_measure Fields (joined_texts texts.now);
    } }
    ensures bound { result.fields ≤ 503 * length (joined_texts texts.now) }
{
    let mut units = 0;
    let mut fields = 0;
    for k in 0..texts.len() {
        let text = texts.get(k);
        units += text.len() as u64;
        fields += measure_of(text, Measure::Fields);
    }
    TextsMeasure { units, fields }
}

/// What the units of runs count.
fn runs_measure(runs: &[Run<Attached>], measure: Measure) -> u64
    requires few { total_len runs.now < 2 ^ 32 }
    requires each { All (IsMeasurable measure) (expanded runs.now) }
    ensures is { result ≡ sum_by (measured measure) (expanded runs.now) }
    ensures bound { result ≤ 503 * total_len runs.now }
{
    let mut sum = 0;
    for run in runs {
        sum += run_measure(run, measure);
    }
    sum
}

/// What the units of a run count.
fn run_measure(run: &Run<Attached>, measure: Measure) -> u64
    requires few { run.now.count < 2 ^ 32 }
    requires each { 0 < run.now.count → IsMeasurable measure run.now.value }
    ensures is { result ≡ run.now.count * measured measure run.now.value }
    ensures bound { result ≤ run.now.count * 503 }
{
    if run.count == 0 {
        return 0;
    }
    run.count as u64 * unit_count(&run.value, measure)
}

/// What one unit counts.
fn unit_count(attached: &Attached, measure: Measure) -> u64
    requires { IsMeasurable measure attached.now }
    ensures is { result ≡ measured measure attached.now }
    ensures bound { result ≤ 503 }
{
    match measure {
        Measure::Notes => attached.note.is_some() as u64,
        Measure::Sections => attached.sect.is_some() as u64,
        Measure::Fields => attached.fld.is_some() as u64,
        Measure::SepxBytes => match &attached.sect {
            None => 0,
            Some(properties) => sepx_len(properties),
        },
    }
}

/// The bytes of the Sepx of a section that has properties.
fn sepx_len(properties: &PropMap) -> u64
    requires { IsSavableSection properties.now }
    ensures is { result ≡ length (sepx_bytes properties.now) }
    ensures bound { result ≤ 503 }
{
    if properties.entries().is_empty() {
        return 0;
    }
    let len = properties.printed_len();
    2 + len + len % 2
}
