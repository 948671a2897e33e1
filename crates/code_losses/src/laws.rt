// A law over the definitions alone.
ghost use Rattle.code_losses.specs.Losses.{CodeLossesAreOne};

/// A file has one list of such codes.
pub fn code_losses_are_one()
    ensures { CodeLossesAreOne }
{}
