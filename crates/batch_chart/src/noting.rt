//! Changes of an act's stage and signs.
ghost use Rattle.std.specs.Prelude.{◌≡◌, ◌<◌, length};
ghost use Rattle.batch_chart.specs.Noting.{HasCome};

use crate::node::kind_of;
use crate::sign::of_stage;
use crate::stage::Stage;
use batch_recipe::Entry;
use batch_signs::Signs;

/// Sets the stage of the act at the node, and its signs.
#[inline(always)]
pub fn set_stage(nodes: &[Entry], stages: &mut [Stage], signs: &mut Signs, n: usize, stage: Stage)
    requires node { n < length nodes.now }
    requires fits { length stages.old ≡ length nodes.now }
    requires signs { length signs.old ≡ length nodes.now }
    ensures { HasCome nodes.now n stage stages.old stages.new signs.old signs.new }
{
    stages[n] = stage;
    signs.set(n, of_stage(kind_of(&nodes[n]).needs(), stage));
}
