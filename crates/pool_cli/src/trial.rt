//! The command `trial`.

ghost use Rattle.std.specs.Prelude.{◌≡◌, IfOk};
ghost use Rattle.edge_io.specs.Counts.{Rose};
ghost use Rattle.pool_model.specs.Network.{net_of};
ghost use Rattle.pool_model.specs.Starting.{HasNoMinima};
ghost use Rattle.cert_format.specs.Cert.{IsCert};
ghost use Rattle.cert_format.specs.Views.{shown_cert, shown_claim};
ghost use Rattle.cert_format.specs.Text.{text_of};
ghost use Rattle.cert_format.specs.Valid.{IsValid};
ghost use Rattle.cert_checker.specs.Answers.{IsAccepted};
ghost use Rattle.search_core.specs.Searches.{IsAsked};
ghost use Rattle.search_run.specs.Orders.{options_of};
ghost use Rattle.pool_cli.specs.TrialEnds as ends;
ghost use Rattle.pool_cli.specs.TrialEnds.{IsTrialOf, TrialEnds, TriesAs, TriesOn, trial_status};
ghost use Rattle.run_status.specs.Took.{Took};

use blend_network::Network;
use box_space::Form;
use branching::RuleName;
use cert_checker::check;
use cert_format::{Certificate, Claim, write_cert};
use edge_io::{MemSink, Memory, Sink};
use network_maker::make_network;
use printed_lines::{Trial, write_trial};
use run_status::Status;
use search_run::Orders;
use solve_command::{ended_status, solution_of};
use std::alloc::Global;

/// How `trial` ended.
#[derive(Debug, Drop)]
pub(crate) enum TrialOutcome {
    /// The lines were written.
    Done,
    /// Memory ran out.
    Memory,
    /// The sink failed.
    WriteFault,
}

impl From<TrialOutcome> for Status {
    ghost from_gives = { λ outcome status. status ≡ trial_status outcome };

    fn from(outcome: TrialOutcome) -> Status {
        match outcome {
            TrialOutcome::Done => Status::Done,
            TrialOutcome::Memory => Status::OutOfMemory,
            TrialOutcome::WriteFault => Status::WriteFault,
        }
    }
}

/// Tries the network of a number: solves it, checks the certificate, and writes how that went.
pub(crate) fn trial<K: Sink>(alloc: Global, number: u64, out: &mut K) -> TrialOutcome
    ensures took { Took (TriesAs number) (trial_status result) (K.taken out.old) (K.taken out.new) }
    ensures ends { TrialEnds (trial_status result) }
    ensures write_fault { trial_status result ≡ Status.WriteFault → Rose (K.faults out.old) (K.faults out.new) }
{
    match make_network(alloc, number) {
        Ok(network) => try_network(alloc, &network, out),
        Err(Memory) => TrialOutcome::Memory,
    }
}

/// Tries a network in which no product must take anything.
fn try_network<K: Sink>(alloc: Global, network: &Network, out: &mut K) -> TrialOutcome
    requires { HasNoMinima (net_of network.now) }
    ensures took { Took (TriesOn (net_of network.now)) (trial_status result) (K.taken out.old) (K.taken out.new) }
    ensures ends { TrialEnds (trial_status result) }
    ensures write_fault { trial_status result ≡ Status.WriteFault → Rose (K.faults out.old) (K.faults out.new) }
{
    match trial_of(alloc, network) {
        Ok(trial) => match write_trial(network, &trial, out) {
            Ok(()) => TrialOutcome::Done,
            Err(_) => TrialOutcome::WriteFault,
        },
        Err(Memory) => TrialOutcome::Memory,
    }
}

/// How a trial of the network goes: a certificate is made and checked.
fn trial_of(alloc: Global, network: &Network) -> Result<Trial, Memory>
    requires { HasNoMinima (net_of network.now) }
    ensures tried { IfOk result (IsTrialOf (net_of network.now)) }
{
    let solution = solution_of(alloc, network, orders())?;
    match accepted_claim(alloc, network, &solution.certificate)? {
        Claim::Gap {
            cost,
            base,
            bound,
            gap,
            ..
        } => Ok(Trial {
            status: ended_status(solution.ended).code(),
            cost,
            base,
            bound,
            gap,
        }),
        // Where nothing must be taken, the plan without any flow obeys.
        Claim::Bound { .. } | Claim::NoPlan => unreachable!(),
    }
}

/// What the text of a valid certificate claims, by the check.
fn accepted_claim(
    alloc: Global,
    network: &Network,
    certificate: &Certificate,
) -> Result<Claim, Memory>
    requires held { IsCert (shown_cert certificate.now) }
    requires valid { IsValid (net_of network.now) (shown_cert certificate.now) }
    ensures accepted { IfOk result (λ c. IsAccepted (net_of network.now) (text_of (shown_cert certificate.now)) (shown_claim c)) }
    ensures numbers { IfOk result (λ c. shown_claim c ≡ (shown_cert certificate.now).claim) }
{
    let mut text = MemSink::new(alloc, Vec::new(alloc));
    match write_cert(certificate, &mut text) {
        Ok(()) => match check(alloc, network, text.taken()) {
            Ok(claim) => Ok(claim),
            // A valid certificate is refused for want of memory alone.
            Err(_) => Err(Memory),
        },
        Err(_) => Err(Memory),
    }
}

/// What a trial asks of the search.
fn orders() -> Orders
    ensures orders { result ≡ ends.trial_orders }
    ensures asked { IsAsked (options_of result) }
{
    Orders {
        form: Form::Pq,
        nodes: 10,
        gap: 10_000_000_000,
        rule: RuleName::Widest,
        squeeze: false,
        raise: 0,
    }
}
