//! A network's numbers, read once into an outline.

ghost use Rattle.std.specs.Prelude.{◌<◌};
ghost use Rattle.pool_model.specs.Network.{net_of};

use blend_network::Network;
use flow_programs::{Arc, Arcs, Limit, Nodes, Outline, Product, Qualities};
use std::alloc::{AllocError, Global};

/// The outline of a network.
pub fn outline_of(alloc: Global, net: &Network) -> Result<Outline, AllocError> {
    let nodes = nodes_of(alloc, net)?;
    let arcs = arcs_of(alloc, net)?;
    let qualities = qualities_of(alloc, net)?;
    Outline::new(alloc, nodes, arcs, qualities)
}

fn nodes_of(alloc: Global, net: &Network) -> Result<Nodes, AllocError> {
    let counts = net.sizes();
    let mut sources = Vec::new(alloc);
    for source in 0..counts.sources {
        sources.push(i128::from(net.source_max(source)))?;
    }
    let mut pools = Vec::new(alloc);
    for pool in 0..counts.pools {
        pools.push(i128::from(net.pool_max(pool)))?;
    }
    let mut products = Vec::new(alloc);
    for product in 0..counts.products {
        let price = i128::from(net.product_price(product));
        let min = i128::from(net.product_min(product));
        let max = i128::from(net.product_max(product));
        products.push(Product { price, min, max })?;
    }
    Ok(Nodes {
        sources,
        pools,
        products,
    })
}

fn arcs_of(alloc: Global, net: &Network) -> Result<Arcs, AllocError> {
    let counts = net.sizes();
    let mut feeds = Vec::new(alloc);
    for feed in 0..counts.feeds {
        feeds.push(feed_of(net, feed))?;
    }
    let mut outs = Vec::new(alloc);
    for out in 0..counts.outs {
        let cost = i128::from(net.out_cost(out));
        outs.push(arc_of(net.out(out), cost, net.out_max(out)))?;
    }
    let mut directs = Vec::new(alloc);
    for direct in 0..counts.directs {
        directs.push(direct_of(net, direct))?;
    }
    Ok(Arcs {
        feeds,
        outs,
        directs,
    })
}

fn feed_of(net: &Network, feed: u32) -> Arc
    requires { feed < (net_of net.now).feeds }
{
    let (source, pool) = net.feed(feed);
    let cost = delivered(net.source_cost(source), net.feed_cost(feed));
    arc_of((source, pool), cost, net.feed_max(feed))
}

fn direct_of(net: &Network, direct: u32) -> Arc
    requires { direct < (net_of net.now).directs }
{
    let (source, product) = net.direct(direct);
    let cost = delivered(net.source_cost(source), net.direct_cost(direct));
    arc_of((source, product), cost, net.direct_max(direct))
}

/// What a unit costs at its source and along its arc.
fn delivered(source: i64, arc: i64) -> i128 {
    i128::from(source).wrapping_add(arc.into())
}

fn arc_of(ends: (u32, u32), cost: i128, max: Option<i64>) -> Arc {
    Arc {
        from: ends.0 as usize,
        to: ends.1 as usize,
        cost,
        max: match max {
            None => None,
            Some(max) => Some(max.into()),
        },
    }
}

fn qualities_of(alloc: Global, net: &Network) -> Result<Qualities, AllocError> {
    let counts = net.sizes();
    let mut limits = Vec::new(alloc);
    let mut ends = Vec::new(alloc);
    for product in 0..counts.products {
        add_limits(net, product, &mut limits)?;
        ends.push(limits.len())?;
    }
    Ok(Qualities {
        count: counts.qualities as usize,
        of_feeds: feed_qualities(alloc, net)?,
        of_directs: direct_qualities(alloc, net)?,
        limits,
        ends,
    })
}

/// The qualities of each feed's source, in as many parts as its pool leaves of them.
fn feed_qualities(alloc: Global, net: &Network) -> Result<Vec<i128>, AllocError> {
    let counts = net.sizes();
    let mut qualities = Vec::new(alloc);
    for feed in 0..counts.feeds {
        let (source, pool) = net.feed(feed);
        for quality in 0..counts.qualities {
            let own = net.source_quality(source, quality);
            qualities.push(in_parts(own, net.retained(pool, quality)))?;
        }
    }
    Ok(qualities)
}

/// The qualities of each direct's source, in all parts of the scale.
fn direct_qualities(alloc: Global, net: &Network) -> Result<Vec<i128>, AllocError> {
    let counts = net.sizes();
    let mut qualities = Vec::new(alloc);
    for direct in 0..counts.directs {
        let (source, _) = net.direct(direct);
        for quality in 0..counts.qualities {
            let own = net.source_quality(source, quality);
            qualities.push(in_parts(own, net.scale()))?;
        }
    }
    Ok(qualities)
}

fn in_parts(number: i64, parts: i64) -> i128 {
    i128::from(number).wrapping_mul(parts.into())
}

/// Adds the limits of a product, its most before its least.
fn add_limits(net: &Network, product: u32, limits: &mut Vec<Limit>) -> Result<(), AllocError>
    requires { product < (net_of net.now).products }
{
    let counts = net.sizes();
    for quality in 0..counts.qualities {
        add_limit(
            net,
            limits,
            quality,
            net.product_most(product, quality),
            true,
        )?;
    }
    for quality in 0..counts.qualities {
        add_limit(
            net,
            limits,
            quality,
            net.product_least(product, quality),
            false,
        )?;
    }
    Ok(())
}

fn add_limit(
    net: &Network,
    limits: &mut Vec<Limit>,
    quality: u32,
    limit: Option<i64>,
    is_most: bool,
) -> Result<(), AllocError> {
    if let Some(limit) = limit {
        limits.push(Limit {
            quality: quality as usize,
            value: in_parts(limit, net.scale()),
            is_most,
        })?;
    }
    Ok(())
}
