//! What the readers say of arcs and pools.

use blend_network::Network;
use std::alloc::{AllocError, Global};
use std::test::Fail;
use worked_networks::{DESULFURED, ONE_DIRECT, network};

/// What each arc costs and holds, and what each pool leaves of each quality.
fn told(alloc: Global, net: &Network) -> Result<String, AllocError> {
    let [_, pools, _, qualities, feeds, outs, directs] = net.counts();
    let mut text = format!(in alloc; "scale {}, plain {}", net.scale(), net.is_plain())?;
    for n in 0..feeds + outs + directs {
        let arc = format!(in alloc; ", arc {} {:?}", net.arc_cost(n), net.arc_max(n))?;
        text.push_str(&arc)?;
    }
    for l in 0..pools {
        for k in 0..qualities {
            let pool = format!(in alloc; ", pool {} {}", net.pool_ratio(l, k), net.retained(l, k))?;
            text.push_str(&pool)?;
        }
    }
    Ok(text)
}

/// Arcs are numbered as feeds, outs and directs. A pool that keeps half is counted in thousandths.
#[test]
fn arcs_and_pools_are_read_by_number(rt: HostRuntime) -> Result<(), Fail> {
    let alloc = rt.alloc();
    for (file, expected, bound) in [
        (
            DESULFURED,
            "scale 1000, plain false, arc 500000 Some(80000000), arc 0 None, pool 500 500",
            -250_000_000_000_000i128,
        ),
        (
            ONE_DIRECT,
            "scale 1, plain true, arc 0 None",
            -300_000_000_000_000,
        ),
    ] {
        let net = network(alloc, file)?;
        assert_eq!(rt; told(alloc, &net)?.as_str(), expected);
        assert_eq!(rt; net.reach_bound(), bound);
    }
    Ok(())
}
