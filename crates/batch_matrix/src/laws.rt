//! Laws of the state matrix. The functions do nothing: their contracts are the laws.
ghost use Rattle.batch_matrix.specs.Laws.{CommandsLeadByName};

/// An accepted command leads to the state of its name.
// claim: commands' names
pub fn commands_lead_by_name()
    ensures { CommandsLeadByName }
{}
