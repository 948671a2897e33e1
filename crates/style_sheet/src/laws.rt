// Laws over the definitions alone.
ghost use Rattle.style_sheet.specs.Chain.{BaseChainIsOne, UnbrokenBasesAreSound};
ghost use Rattle.style_sheet.specs.Written.{SheetIsOne, SheetIsReadBack, PartsHoldSheets};

/// A style has one chain of bases at most.
pub fn base_chain_is_one()
    ensures { BaseChainIsOne }
{}

/// A part holds one sheet at most.
pub fn sheet_is_one()
    ensures { SheetIsOne }
{}

/// A sheet as it is written breaks no rule and is read back.
pub fn sheet_is_read_back()
    ensures { SheetIsReadBack }
{}

/// A part of bytes that breaks no rule holds a sheet.
pub fn parts_hold_sheets()
    ensures { PartsHoldSheets }
{}

/// Where no style breaks the rule of bases, each style with properties has its chain.
pub fn unbroken_bases_are_sound()
    ensures { UnbrokenBasesAreSound }
{}
