//! The proof of the root.

ghost use Rattle.std.specs.Prelude.{IfOk, option_map};
ghost use Rattle.pool_model.specs.Network.{IsLimited, net_of};
ghost use Rattle.row_model.specs.Boxes.{root};
ghost use Rattle.row_model.specs.Multipliers.{bound as shows};
ghost use Rattle.box_space.specs.Views.{shown_proof};
ghost use Rattle.leaf_cuts.specs.Given.{IsGiven};

use crate::bench::Bench;
use crate::known::KnownAdvice;
use blend_network::Network;
use box_space::{Form, Proof, root_box};
use edge_io::Memory;
use std::alloc::Global;

/// What rounding gives for the root box above a bound, of an advice on its program from nothing, which is known then.
pub fn root_proof(
    alloc: Global,
    net: &Network,
    form: Form,
    pivots: u32,
    bound: i128,
    known: &mut Option<KnownAdvice>,
) -> Result<Option<Proof>, Memory>
    requires { IsLimited (net_of net.now) }
    ensures { IfOk result (λ o. IsGiven (net_of net.now) form (root (net_of net.now)) (shows bound) (option_map shown_proof o)) }
{
    let ends = root_box(alloc, net)?;
    let mut bench = Bench::new(alloc, net, form, pivots, &ends)?;
    let advice = bench.advise(alloc)?;
    let proof = bench.round(net, &ends, &advice, bound)?;
    *known = Some(KnownAdvice::of_root(advice));
    Ok(proof)
}
