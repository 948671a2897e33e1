// The document that a file means, layer by layer: its streams, its FIB, and then its text.
ghost use Rattle.std.specs.Prelude.{◌≡◌, MatchResult};
ghost use Rattle.cfb_streams.specs.Contents.{HasNamed};
ghost use Rattle.cfb_streams.specs.Names.{wd_name};
ghost use Rattle.file_rules.specs.Faults.{IsReadFault};
ghost use Rattle.doc_read.specs.CarriedParts.{AreWithinBounds};
ghost use Rattle.doc_lift.specs.LiftedRules.{lifted_wd_rules, lifted_contents_rules};
ghost use Rattle.doc_lift.specs.LiftedTexts.{IsLiftedBy};
ghost use Rattle.doc_lift.specs.LiftedFiles.{IsLifted, lifted_rules};

use crate::text_lifting::{LiftedText, lift_text};
use cfb_streams::{Container, OuterContainer, WORD_DOCUMENT, table_name};
use doc_bits::{Where, drop_then};
use doc_columns::ColumnDocument;
use fib_versions::AnyFib;
use file_rules::{RULE_TABLE, RULE_WORD_DOCUMENT, ReadFault, refused_container};
use std::alloc::Global;

/// Where the flags of the FIB are, which name the table stream.
const FLAGS: u32 = 10;

/// What is lifted out of a file: its document, its streams with the names of its storages, the units of all CPs of its
/// text, those of the stories among them that the document has no place for, and of each CP of the others whether a
/// reviser deleted it, and which place of the stream Data its paragraph names.
#[derive(Drop)]
pub struct Lifted {
    pub document: ColumnDocument,
    pub outer: OuterContainer,
    pub units: Vec<u16>,
    pub deleted: Vec<bool>,
    pub offsets: Vec<Option<u32>>,
}

/// Lifts the document of a file. The rules on documents, 60 to 71, are not checked.
pub fn lift(alloc: Global, file: &[u8]) -> Result<Lifted, ReadFault>
    ensures { MatchResult result (IsLifted file.now) (IsReadFault (lifted_rules file.now)) }
{
    let outer = match Container::load_outer(alloc, file) {
        Ok(outer) => outer,
        Err(fault) => return Err(refused_container(fault)),
    };
    match lift_contents(alloc, outer.container()) {
        Ok(found) => Ok(lifted_of(outer, found)),
        Err(fault) => drop_then(outer, Err(fault)),
    }
}

/// What is lifted, of its parts. It takes no memory.
fn lifted_of(outer: OuterContainer, found: LiftedText) -> Lifted
    ensures { result ≡ record {
      document = found.document;
      outer = outer;
      units = found.units;
      deleted = found.deleted;
      offsets = found.offsets;
    } }
{
    let LiftedText {
        document,
        units,
        deleted,
        offsets,
    } = found;
    Lifted {
        document,
        outer,
        units,
        deleted,
        offsets,
    }
}

/// Lifts the document of streams.
fn lift_contents(alloc: Global, container: &Container) -> Result<LiftedText, ReadFault>
    requires { AreWithinBounds container.now }
    ensures { MatchResult result
        (IsLiftedBy (lifted_contents_rules container.now) container.now)
        (IsReadFault (lifted_contents_rules container.now)) }
{
    let Some(wd) = container.stream(&WORD_DOCUMENT) else {
        return Err(ReadFault::Refused {
            rule: RULE_WORD_DOCUMENT,
            place: Where::File,
            offset: 0,
        });
    };
    lift_wd(alloc, container, wd)
}

/// Lifts the document of `WordDocument`.
fn lift_wd(alloc: Global, container: &Container, wd: &[u8]) -> Result<LiftedText, ReadFault>
    requires bounds { AreWithinBounds container.now }
    requires there { HasNamed container.now.streams wd_name wd.now }
    ensures { MatchResult result
        (IsLiftedBy (lifted_wd_rules container.now wd.now) container.now)
        (IsReadFault (lifted_wd_rules container.now wd.now)) }
{
    let fib = match AnyFib::read(wd) {
        Ok(fib) => fib,
        Err(fault) => {
            return Err(ReadFault::Refused {
                rule: fault.rule,
                place: Where::Wd,
                offset: fault.offset,
            });
        }
    };
    let Some(table) = container.stream(table_name(fib.which_table())) else {
        return Err(ReadFault::Refused {
            rule: RULE_TABLE,
            place: Where::Wd,
            offset: FLAGS,
        });
    };
    lift_text(alloc, container, &fib, wd, table)
}
