//! What the text of a program means, for the proofs of the crates above. There is no code here.

ghost use Rattle.std.specs.Prelude.{◌≤◌};
ghost use Rattle.pool_model.specs.Network.{IsLimited, Net, net_of};
ghost use Rattle.row_model.specs.Variables.{path_count};
ghost use Rattle.box_space.specs.declared.coordinates.Form.{Form};
ghost use Rattle.program_text.specs.Programs.{program_text};
ghost use Rattle.printed_program.specs.Meaning.{IsTheProblem};

use blend_network::Network;
use program_model::{bounds_law, flows_law, lifted_law, rows_law};
use row_model::{cost_law, ends_law, root_law};

/// The text of a program is that of lines whose points are those of the exact program of its form, and whose flows are the plans
/// that obey, at the same cost.
pub fn printed_law()
    // Promise: The numbers that keep the ends, the rows and the products of a program's text are the points of the exact program of its
    //   form, both ways and at the same cost; their flows are the plans that obey, at the same cost
    ensures { (n : Net) (form : Form) → IsLimited n → path_count n ≤ 512 → IsTheProblem n form (program_text n form) }
{
    root_law();
    ends_law();
    cost_law();
    rows_law();
    flows_law();
    lifted_law();
    bounds_law();
}

/// The same of a network in memory.
pub fn network_law(net: &Network)
    ensures { (form : Form) → IsTheProblem (net_of net.now) form (program_text (net_of net.now) form) }
{
    printed_law();
    let _counts = net.sizes();
}
