//! A law of the outlines of ports. Nothing runs here: the contract is the law.
ghost use Rattle.batch_desk.specs.Laws.{OutlinesKeepRings};

/// Ports with the same outlines have the same rings and the same scopes.
pub fn outlines_keep_rings()
    ensures { OutlinesKeepRings }
{}
