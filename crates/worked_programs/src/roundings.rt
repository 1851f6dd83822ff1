//! The program of a root box, and what is rounded of advice that says nothing.

use blend_network::Network;
use box_space::{Form, Proof, root_box};
use dual_rounding::{lp_of, round};
use edge_io::Memory;
use linear_program::{Advice, Lp};
use row_book::Shown;
use std::alloc::{AllocError, Global};
use std::test::Fail;
use worked_networks::{DESULFURED, ONE_DIRECT, TWO_FEEDS, network};

/// Advice of zeros alone, of the lengths of a program.
fn zeros(alloc: Global, lp: &Lp) -> Result<Advice, AllocError> {
    Ok(Advice {
        ray: false,
        duals: vec![in alloc; 0; lp.rows.len()]?,
        point: vec![in alloc; 0; lp.low.len()]?,
        basis: Vec::new(alloc),
    })
}

/// The numbers of a program's rows.
fn numbers(alloc: Global, lp: &Lp) -> Result<String, AllocError> {
    let mut told = String::new(alloc);
    for row in &lp.rows {
        told.push_str(format!(in alloc; "{} ", row.id)?.as_str())?;
    }
    Ok(told)
}

/// A proof that was rounded, or that there is none.
fn shown(alloc: Global, proof: Option<Proof>) -> Result<String, AllocError> {
    match proof {
        None => format!(in alloc; "none"),
        Some(proof) => format!(in alloc; "{} {:?}", proof.scale, proof.parts.as_slice()),
    }
}

/// The rows of the root's program in form PQ, and what is rounded of advice of zeros where this bound is known.
fn rounded(alloc: Global, net: &Network, known: i128) -> Result<String, Memory> {
    let root = root_box(alloc, net)?;
    let lp = lp_of(alloc, net, Form::Pq, &root.view())?;
    let advice = zeros(alloc, &lp)?;
    let proof = round(alloc, net, &root.view(), &lp, &advice, Shown::Bound(known))?;
    let rows = numbers(alloc, &lp)?;
    Ok(format!(in alloc; "{rows}- {}", shown(alloc, proof)?)?)
}

/// The bound of the root is -300 where only its costs are added up, and where the pool's balance is taken 6 times. Where the feed's arc
/// costs 0.5 and the balance is taken 6.5 times, it is -250.
#[test]
fn advice_of_zeros_gives_the_price_proof(rt: HostRuntime) -> Result<(), Fail> {
    for (text, known, told) in [
        (ONE_DIRECT, -300_000_000_000_000, "0 1 2 4 - none"),
        (ONE_DIRECT, -300_000_000_000_001, "0 1 2 4 - 1 []"),
        (
            TWO_FEEDS,
            -300_000_000_000_001,
            "- 1 [Part { row: 2, mult: 6000000 }]",
        ),
        (DESULFURED, -250_000_000_000_000, "- none"),
        (
            DESULFURED,
            -250_000_000_000_001,
            "- 1 [Part { row: 1, mult: 6500000 }]",
        ),
    ] {
        let net = network(rt.alloc(), text)?;
        let found = rounded(rt.alloc(), &net, known)?;
        assert!(rt;
            found.as_str().ends_with(told),
            "{found} in place of {told}"
        );
    }
    Ok(())
}
