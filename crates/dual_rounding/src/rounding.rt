//! The proof of a box, from an advice that nobody trusts.

ghost use Rattle.std.specs.Prelude.{◌≡◌, ◌↔◌, ◌++◌, ◌∷◌, [], List, All, IfOk, OnOk, IfSome, IsTrue, option_map};
ghost use Rattle.pool_model.specs.Network.{IsLimited, net_of};
ghost use Rattle.row_model.specs.Multipliers as multipliers;
ghost use Rattle.row_model.specs.Multipliers.{shown_by};
ghost use Rattle.box_space.specs.Views.{IsView, shown_box, shown_proof};
ghost use Rattle.box_space.specs.declared.coordinates.Form as forms;
ghost use Rattle.row_book.specs.Views.{shown_value};
ghost use Rattle.dual_rounding.specs.Programs.{form_rows, has_row, numbers};
ghost use Rattle.dual_rounding.specs.Price as prices;
ghost use Rattle.dual_rounding.specs.Tried.{tried};
ghost use Rattle.dual_rounding.specs.Answers.{IsAtMost, IsBelow, IsRounded, known_by};
ghost use Rattle.dual_rounding.specs.Leads.{Leads};
ghost use Rattle.dual_rounding.specs.Rooms.{Serves};

use crate::multipliers::write_advised;
use crate::price::price_proof;
use blend_network::Network;
use box_space::{BoxView, Proof};
use edge_io::Memory;
use linear_program::{Advice, Lp};
use row_book::{Scratch, Shown, value};
use std::alloc::{AllocError, Global};

/// A proof that shows more of the box than the fallback, made of an advice on a program; None exactly where no tried proof does.
/// The tried proofs are the price proof and, for the scales 1, 2^10, 2^20 and 2^30, that of the advice; the answer is the first
/// of those that show the most. That there is no plan is more than any bound. Of the advice and the program nothing is asked: a
/// proof is tried on the rows themselves, and one that is not in order there is passed over.
pub fn round(
    alloc: Global,
    net: &Network,
    v: &BoxView,
    lp: &Lp,
    advice: &Advice,
    fallback: Shown,
) -> Result<Option<Proof>, Memory>
    requires { IsView (net_of net.now) v.now }
    // Promise: Of the price proof and the advice's proofs at four scales the first of those that show most is answered, where it shows more
    //   than was known; none exactly where none does; whatever the advice
    ensures rounded { IfOk result (λ o. IsRounded (net_of net.now) (shown_box v.now)
        (tried (net_of net.now) lp.now advice.now) (shown_value fallback) (option_map shown_proof o)) }

    // At least what the price proof shows is known then.
    // Promise: At least what the price proof shows is known after a rounding
    ensures price { IfOk result (λ o. IsAtMost (shown_by (net_of net.now) (shown_box v.now) (prices.price_proof (net_of net.now)))
        (known_by (net_of net.now) (shown_box v.now) (shown_value fallback) (option_map shown_proof o))) }

    // On a form's program only rows of the form are named.
    // Promise: The proofs that rounding answers name rows of the form alone
    ensures form { (form : forms.Form) → numbers lp.now ≡ form_rows (net_of net.now) form
        → IfOk result (λ o. IfSome o (λ p. All (λ q. IsTrue (has_row (net_of net.now) form q.row)) p.parts.items)) }
{
    Rounding::new(alloc, net)?.round(net, v, lp, advice, fallback)
}

/// The memory in which proofs of a network's boxes are tried, the network's price proof, and what is known of the box that was
/// rounded last.
#[derive(Drop)]
pub struct Rounding {
    alloc: Global,
    pub(crate) scratch: Scratch,
    pub(crate) price: Proof,
    tried: Proof,
    best: Proof,
    pub(crate) known: Shown,
}

/// What is known of the box so far: what the best proof shows, or the fallback where there is no best proof yet.
#[derive(Clone, Copy)]
pub(crate) struct Lead {
    pub(crate) shown: Shown,
    pub(crate) is_proved: bool,
}

impl Rounding {
    /// The memory to round in for a network.
    pub fn new(alloc: Global, net: &Network) -> Result<Rounding, Memory>
        ensures { IfOk result (Serves (net_of net.now)) }
    {
        Ok(Rounding {
            alloc,
            scratch: Scratch::new(alloc, net)?,
            price: price_proof(alloc, net)?,
            tried: empty(alloc),
            best: empty(alloc),
            known: Shown::Bound(i128::MIN),
        })
    }

    /// The same as [`round`], in memory that is kept.
    pub fn round(
        &mut self,
        net: &Network,
        v: &BoxView,
        lp: &Lp,
        advice: &Advice,
        fallback: Shown,
    ) -> Result<Option<Proof>, Memory>
        requires view { IsView (net_of net.now) v.now }
        requires serves { Serves (net_of net.now) self.old }
        // Promise: Of the price proof and the advice's proofs at four scales the first of those that show most is answered, where it shows
        //   more than was known; none exactly where none does; whatever the advice
        ensures rounded { IfOk result (λ o. IsRounded (net_of net.now) (shown_box v.now)
            (tried (net_of net.now) lp.now advice.now) (shown_value fallback) (option_map shown_proof o)) }
        // Promise: At least what the price proof shows is known after a rounding
        ensures price { IfOk result (λ o. IsAtMost (shown_by (net_of net.now) (shown_box v.now) (prices.price_proof (net_of net.now)))
            (known_by (net_of net.now) (shown_box v.now) (shown_value fallback) (option_map shown_proof o))) }
        // Promise: The proofs that rounding answers name rows of the form alone
        ensures form { (form : forms.Form) → numbers lp.now ≡ form_rows (net_of net.now) form
            → IfOk result (λ o. IfSome o (λ p. All (λ q. IsTrue (has_row (net_of net.now) form q.row)) p.parts.items)) }
        // Promise: What `Rounding` then says is known of the box is what the answer shows of it, or what was known before
        ensures known { IfOk result (λ o. shown_value self.new.known
            ≡ known_by (net_of net.now) (shown_box v.now) (shown_value fallback) (option_map shown_proof o)) }
        ensures serves { Serves (net_of net.now) self.new }
    {
        let lead = self.try_all(net, v, lp, advice, fallback)?;
        self.known = lead.shown;
        if !lead.is_proved {
            return Ok(None);
        }
        let scale = self.best.scale;
        let parts = Vec::from_slice(self.alloc, self.best.parts.as_slice())?;
        Ok(Some(Proof { scale, parts }))
    }

    /// What is known of the box that was rounded last: what the answer shows of it, or the fallback where there was none.
    pub fn known(&self) -> Shown
        ensures { result ≡ self.now.known }
    {
        self.known
    }

    /// Tries all proofs, and says what is known then.
    fn try_all(
        &mut self,
        net: &Network,
        v: &BoxView,
        lp: &Lp,
        advice: &Advice,
        fallback: Shown,
    ) -> Result<Lead, AllocError>
        requires view { IsView (net_of net.now) v.now }
        requires serves { Serves (net_of net.now) self.old }
        ensures leads { IfOk result (λ lead. Leads (net_of net.now) (shown_box v.now)
            (tried (net_of net.now) lp.now advice.now) (shown_value fallback) lead (shown_proof self.new.best)) }
        ensures serves { Serves (net_of net.now) self.new }
        ensures limited { OnOk result (IsLimited (net_of net.now)) }
    {
        let lead = Lead {
            shown: fallback,
            is_proved: false,
        };
        copy(&self.price, &mut self.tried)?;
        let lead = self.keep_better(net, v, lead);
        write_advised(lp, advice, 1, 32, &mut self.tried)?;
        let lead = self.keep_better(net, v, lead);
        write_advised(lp, advice, 1024, 22, &mut self.tried)?;
        let lead = self.keep_better(net, v, lead);
        write_advised(lp, advice, 1_048_576, 12, &mut self.tried)?;
        let lead = self.keep_better(net, v, lead);
        write_advised(lp, advice, 1_073_741_824, 2, &mut self.tried)?;
        Ok(self.keep_better(net, v, lead))
    }

    /// Values the tried proof, and takes it for the best one where it shows more than is known.
    fn keep_better(&mut self, net: &Network, v: &BoxView, lead: Lead) -> Lead
        requires view { IsView (net_of net.now) v.now }
        requires serves { Serves (net_of net.now) self.old }
        ensures leads { (fallback : multipliers.Shown) (tried : List multipliers.Proof)
            → Leads (net_of net.now) (shown_box v.now) tried fallback lead (shown_proof self.old.best)
            → Leads (net_of net.now) (shown_box v.now) (tried ++ shown_proof self.old.tried ∷ []) fallback result (shown_proof self.new.best) }
        ensures serves { Serves (net_of net.now) self.new }
        ensures limited { IsLimited (net_of net.now) }
    {
        let Ok(shown) = value(net, v, &self.tried, &mut self.scratch) else {
            return lead;
        };
        if !is_above(shown, lead.shown) {
            return lead;
        }
        std::mem::swap(&mut self.tried, &mut self.best);
        Lead {
            shown,
            is_proved: true,
        }
    }
}

/// Whether one value shows more than another.
fn is_above(a: Shown, b: Shown) -> bool
    ensures { IsTrue result ↔ IsBelow (shown_value b) (shown_value a) }
{
    match (a, b) {
        (Shown::Bound(a), Shown::Bound(b)) => a > b,
        (Shown::NoPlan, Shown::Bound(_)) => true,
        (_, Shown::NoPlan) => false,
    }
}

/// A proof without parts.
fn empty(alloc: Global) -> Proof {
    Proof {
        scale: 0,
        parts: Vec::new(alloc),
    }
}

/// Writes a proof over another.
fn copy(from: &Proof, into: &mut Proof) -> Result<(), AllocError>
    ensures { OnOk result (shown_proof into.new ≡ shown_proof from.now) }
{
    into.scale = from.scale;
    into.parts.clear();
    into.parts.extend_from_slice(from.parts.as_slice())
}
