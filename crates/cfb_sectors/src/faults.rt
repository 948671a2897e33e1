// Why a file is refused, and how a check's answer becomes that.
ghost use Rattle.std.specs.Prelude.{◌≡◌, None, MatchResult};
ghost use Rattle.cfb_sectors.specs.Judged.{IsRuleFault, broken_place};
ghost use Rattle.cfb_sectors.specs.declared.chain.Chain.TheVariants.{Found};

use crate::chain::Chain;
use doc_bits::Memory;
use thiserror::Error;

/// A broken rule, and its place in bytes from the start of the file.
#[derive(Clone, Copy)]
pub struct BrokenRule {
    pub rule: u8,
    pub offset: u32,
}

/// Why a file is not read as a compound file.
#[derive(Clone, Copy, Debug, Error)]
pub enum CfbFault {
    /// The first broken rule, and its least place in bytes from the start of the file.
    #[error("rule {rule} is broken at offset {offset}")]
    Rule { rule: u8, offset: u32 },
    #[error("out of memory")]
    Memory,
}

impl From<Memory> for CfbFault {
    ghost use Rattle.std.specs.Prelude.{◌≡◌};
    ghost use Rattle.cfb_sectors.specs.declared.faults.CfbFault.TheVariants.{Memory};

    ghost from_gives = { λ _ e. e ≡ Memory };

    fn from(_: Memory) -> Self {
        CfbFault::Memory
    }
}

impl From<BrokenRule> for CfbFault {
    ghost use Rattle.std.specs.Prelude.{◌≡◌};
    ghost use Rattle.cfb_sectors.specs.declared.faults.CfbFault.TheVariants.{Rule};

    ghost from_gives = { λ broken e. e ≡ Rule broken.rule broken.offset };

    fn from(broken: BrokenRule) -> Self {
        CfbFault::Rule {
            rule: broken.rule,
            offset: broken.offset,
        }
    }
}

/// Refuses the file where a rule is broken at a place.
pub fn refuse(rule: u8, wrong: Option<u32>) -> Result<(), CfbFault>
    ensures { MatchResult result (λ _. wrong ≡ None) (IsRuleFault rule wrong) }
{
    match wrong {
        None => Ok(()),
        Some(offset) => Err(CfbFault::Rule { rule, offset }),
    }
}

/// The sectors of a chain. Refuses the file where it is broken.
pub fn whole(rule: u8, chain: Chain) -> Result<Vec<u32>, CfbFault>
    ensures { MatchResult result (λ sectors. chain ≡ Found sectors) (IsRuleFault rule (broken_place chain)) }
{
    match chain {
        Chain::Found(sectors) => Ok(sectors),
        Chain::Breaks(offset) => Err(CfbFault::Rule { rule, offset }),
    }
}
