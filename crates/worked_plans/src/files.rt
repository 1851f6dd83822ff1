//! Network files that are refused, each for its first fault with its place; and a network without a starting plan.

use network_json::read_network;
use plan_core::cheapest_start;
use std::alloc::Global;
use std::test::Fail;
use worked_networks::{DESULFURED, ONE_DIRECT, TWO_POOLS, network};

/// Texts of the network of one source and one product with what is written in their place, and the fault.
const FAULTS_OF_DIRECT: &str =
    r#""cost":6 to "cost":18446744073709551615 = Net(OutOfRange(Source, 0))
"max":100,"quality" to "max":-1,"quality" = Net(OutOfRange(Source, 0))
"cost":6 to "cost":"" = BadQuantity(Place { section: Sources, index: 0 })
"cost":6 to "cost":"1." = BadQuantity(Place { section: Sources, index: 0 })
"cost":6 to "cost":"+1" = BadQuantity(Place { section: Sources, index: 0 })
"cost":6 to "cost":" 1" = BadQuantity(Place { section: Sources, index: 0 })
"cost":6 to "cost":"1e3" = BadQuantity(Place { section: Sources, index: 0 })
"cost":6 to "cost":"1234567890123456" = BadQuantity(Place { section: Sources, index: 0 })
"cost":6 to "cost":true = WrongKind(Place { section: Sources, index: 0 })
"name":"A" to "name":"12345678901234567890123456789012345678901" = Net(BadName(Source, 0))
"name":"A" to "name":"é" = Net(BadName(Source, 0))
"name":"A" to "name":"1234567890123456789012345678901234567890" = Net(UnknownName(0))
"most":{"sulfur":3} to "most":{"sulfur":2.5} = NotWhole(Place { section: Products, index: 0 })
"most":{"sulfur":3} to "most":{"sulfur":"2.5000001"} = BadQuantity(Place { section: Products, index: 0 })
"cost":6 to "cots":6 = UnknownMember(Place { section: Sources, index: 0 })
["A","X"] to {"from":"A","to":"X"} = WrongKind(Place { section: Arcs, index: 0 })
"#;

/// The same of the network of version 2, whose pool removes half of the sulfur.
const FAULTS_OF_DESULFURED: &str =
    r#""version":2 to "version":1 = UnknownMember(Place { section: Pools, index: 0 })
"version":2 to "version":3 = WrongVersion
"version":2 to "version":2.0 = WrongVersion
"version":2 to "version":"2" = WrongKind(Place { section: Top, index: 0 })
"ratio":{"sulfur":500} to "ratio":500 = WrongKind(Place { section: Pools, index: 0 })
"sulfur":500 to "lead":500 = UnknownMember(Place { section: Pools, index: 0 })
"sulfur":500 to "sulfur":"500" = WrongKind(Place { section: Pools, index: 0 })
"sulfur":500 to "sulfur":0.5 = NotWhole(Place { section: Pools, index: 0 })
"sulfur":500 to "sulfur":1001 = Net(OutOfRange(Pool, 0))
"sulfur":500 to "sulfur":-1 = Net(OutOfRange(Pool, 0))
["P","X"] to ["P"] = WrongKind(Place { section: Arcs, index: 1 })
["P","X"] to "P" = WrongKind(Place { section: Arcs, index: 1 })
["P","X"] to {"from":"P","to":7} = WrongKind(Place { section: Arcs, index: 1 })
"from":"A" to "max":1 = Missing(Place { section: Arcs, index: 0 })
"cost":"0.5" to "cots":"0.5" = UnknownMember(Place { section: Arcs, index: 0 })
"cost":"0.5" to "cost":0.5 = NotWhole(Place { section: Arcs, index: 0 })
"cost":"0.5" to "cost":".5" = BadQuantity(Place { section: Arcs, index: 0 })
"cost":"0.5" to "cost":"1000000.000001" = Net(OutOfRange(Arc, 0))
"max":80 to "max":null = WrongKind(Place { section: Arcs, index: 0 })
"max":80 to "max":-1 = Net(OutOfRange(Arc, 0))
["P","X"] to {"from":"A","to":"P"} = Net(DuplicateArc(1))
"#;

/// The fault of the network of a text; empty where there is none.
fn fault_of(alloc: Global, text: &str) -> Result<String, Fail> {
    match read_network(alloc, text.as_bytes()) {
        Ok(_) => Ok(String::new(alloc)),
        Err(fault) => Ok(format!(in alloc; "{fault:?}")?),
    }
}

#[test]
fn a_fault_has_its_place(rt: HostRuntime) -> Result<(), Fail> {
    let alloc = rt.alloc();
    for (file, faults) in [
        (ONE_DIRECT, FAULTS_OF_DIRECT),
        (DESULFURED, FAULTS_OF_DESULFURED),
    ] {
        for line in faults.lines() {
            let (change, fault) = line.split_once(" = ").ok_or("a fault")?;
            let (old, new) = change.split_once(" to ").ok_or("a change")?;
            let text = file.replace(alloc, old, new)?;
            assert_eq!(rt;
                fault_of(alloc, text.as_str())?.as_str(),
                fault,
                "of {change}"
            );
        }
    }
    Ok(())
}

/// X has to take 5, and no source alone has sulfur between its limits.
#[test]
fn two_pools_have_no_starting_plan(rt: HostRuntime) -> Result<(), Fail> {
    let net = network(rt.alloc(), TWO_POOLS)?;
    assert!(rt; cheapest_start(rt.alloc(), &net)?.is_none());
    Ok(())
}
