//! A network that is built of rows, and what flows along one way alone.

ghost use Rattle.std.specs.Prelude.{◌≡◌, [], IfOk};
ghost use Rattle.pool_model.specs.Rows.{IsRectangular};
ghost use Rattle.network_parts.specs.Parts.{rows_of};

use blend_network::Network;
use edge_io::Memory;
use network_checks::build_network;
use network_parts::{ArcRow, Parts, ProductRow, SourceRow};
use network_text::write_canonical;
use plan_core::{Way, simple_plan};
use std::alloc::{AllocError, Global};
use std::test::Fail;
use worked_networks::{
    CANONICAL_DESULFURED, CANONICAL_ONE_DIRECT, DESULFURED, HAVERLY_1, ONE_DIRECT, network,
};

/// A source of cost 1 without a maximum.
fn source(alloc: Global, name: &str) -> Result<SourceRow, AllocError>
    ensures { IfOk result (λ s. s.quality.items ≡ []) }
{
    Ok(SourceRow {
        name: String::from_str(alloc, name)?,
        cost: 1_000_000,
        max: None,
        quality: Vec::new(alloc),
    })
}

/// A product of price 2 that takes so many units.
fn product(alloc: Global, name: &str, units: u8) -> Result<ProductRow, AllocError>
    ensures least { IfOk result (λ p. p.least.items ≡ []) }
    ensures most { IfOk result (λ p. p.most.items ≡ []) }
{
    Ok(ProductRow {
        name: String::from_str(alloc, name)?,
        price: 2_000_000,
        min: 0,
        max: i128::from(units) * 1_000_000,
        least: Vec::new(alloc),
        most: Vec::new(alloc),
    })
}

/// An arc between two ends, which costs nothing and has no maximum.
fn arc(alloc: Global, from: &str, to: &str) -> Result<ArcRow, AllocError> {
    Ok(ArcRow {
        from: String::from_str(alloc, from)?,
        to: String::from_str(alloc, to)?,
        cost: 0,
        max: None,
    })
}

/// Source A sends to the products X and Y, which take 30 and 20. There are no qualities.
fn rows(alloc: Global) -> Result<Parts, AllocError>
    ensures { IfOk result (λ p. IsRectangular (rows_of p)) }
{
    let sources = vec![in alloc; source(alloc, "A")?]?;
    let products = vec![in alloc; product(alloc, "X", 30)?, product(alloc, "Y", 20)?]?;
    let arcs = vec![in alloc; arc(alloc, "A", "X")?, arc(alloc, "A", "Y")?]?;
    Ok(Parts {
        qualities: Vec::new(alloc),
        sources,
        pools: Vec::new(alloc),
        products,
        arcs,
    })
}

/// The text of the network of these rows.
fn built(alloc: Global) -> Result<Vec<u8>, Fail> {
    let net = build_network(alloc, rows(alloc)?)?;
    Ok(write_canonical(alloc, &net)?)
}

/// From a script in Python that was written from the page on formats: an absent maximum is the sum of what the products take.
#[test]
fn a_network_is_built_of_its_rows(rt: HostRuntime) -> Result<(), Fail> {
    let expected =
        "{\"arcs\":[[\"A\",\"X\"],[\"A\",\"Y\"]],\"pools\":[],\"products\":[{\"least\":{},\"max\":30,\"min\":0,\"most\":{},\"name\":\"X\",\
        \"price\":2},{\"least\":{},\"max\":20,\"min\":0,\"most\":{},\"name\":\"Y\",\"price\":2}],\"qualities\":[],\"sources\":[{\"cost\":1,\
        \"max\":50,\"name\":\"A\",\"quality\":{}}],\"version\":1}";
    let text = built(rt.alloc())?;
    assert_eq!(rt; text.as_slice(), expected.as_bytes());
    Ok(())
}

/// The canonical text of the network of a file.
fn canonical(alloc: Global, file: &str) -> Result<Vec<u8>, Fail> {
    let net = network(alloc, file)?;
    Ok(write_canonical(alloc, &net)?)
}

/// A text has version 1 where that can say the network, also where the file has version 2, says ratios of 1000, costs of 0 and no maxima.
#[test]
fn a_text_has_the_first_version_that_says_it(rt: HostRuntime) -> Result<(), Fail> {
    let alloc = rt.alloc();
    let later = ONE_DIRECT.replace(alloc, "\"version\":1", "\"version\":2")?;
    let object = later.replace(
        alloc,
        "[\"A\",\"X\"]",
        "{\"to\":\"X\",\"from\":\"A\",\"cost\":\"0.0\"}",
    )?;
    for (file, text) in [
        (ONE_DIRECT, CANONICAL_ONE_DIRECT),
        (later.as_str(), CANONICAL_ONE_DIRECT),
        (object.as_str(), CANONICAL_ONE_DIRECT),
        (DESULFURED, CANONICAL_DESULFURED),
    ] {
        assert_eq!(rt; canonical(alloc, file)?.as_slice(), text, "of {file}");
    }
    Ok(())
}

/// The simple plan of a way, as text; none where there is no such way.
fn simple(alloc: Global, net: &Network, way: Way) -> Result<String, Memory> {
    let [_, _, _, _, _, _, directs] = net.counts();
    let is_there = match way {
        Way::Through(path) => path < net.paths(),
        Way::Direct(direct) => direct < directs,
    };
    if !is_there {
        return Ok(String::new(alloc));
    }
    let plan = simple_plan(alloc, net, way)?;
    Ok(format!(in alloc; "{plan:?}\n")?)
}

/// A has too much sulfur for X. B has little enough for Y, which takes 200; C has little enough for X, which takes 100, and too much for Y.
#[test]
fn a_way_carries_what_its_ends_allow(rt: HostRuntime) -> Result<(), Fail> {
    let net = network(rt.alloc(), HAVERLY_1)?;
    for (way, plan) in [
        (
            Way::Through(0),
            "weights: [1, 0], outflows: [0, 0], direct: [0, 0]",
        ),
        (
            Way::Through(3),
            "weights: [0, 1], outflows: [0, 200000000], direct: [0, 0]",
        ),
        (
            Way::Direct(0),
            "weights: [1, 0], outflows: [0, 0], direct: [100000000, 0]",
        ),
        (
            Way::Direct(1),
            "weights: [1, 0], outflows: [0, 0], direct: [0, 0]",
        ),
    ] {
        let expected = format!(in rt.alloc(); "WrittenPlan {{ base: 1, flow_base: 1, {plan} }}\n")?;
        assert_eq!(rt; simple(rt.alloc(), &net, way)?.as_str(), expected.as_str());
    }
    Ok(())
}
