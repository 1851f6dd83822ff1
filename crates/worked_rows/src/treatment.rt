//! Rows, ends and costs of networks whose arcs cost something and carry only so much, and whose pools remove a part of a quality,
//! by hand from the tables of the forms.

ghost use Rattle.pool_model.specs.Network.{net_of};
ghost use Rattle.box_space.specs.Views.{IsView};

use crate::rows::root_rows;
use blend_network::Network;
use box_space::{BoxView, root_box, var_cost, var_ends, vars};
use edge_io::Memory;
use std::alloc::Global;
use std::test::Fail;
use worked_networks::{DESULFURED, network};

/// Source A feeds the pool P, which removes half of the load, and B reaches X direct.
const CLEANED: &str =
    r#"{"version":2,"qualities":["load"],"sources":[{"name":"A","cost":1,"quality":{"load":30}},
{"name":"B","cost":2,"quality":{"load":25}}],"pools":[{"name":"P","ratio":{"load":500}}],
"products":[{"name":"X","price":5,"max":60,"least":{"load":15},"most":{"load":20}}],
"arcs":[["A","P"],["P","X"],["B","X"]]}"#;

/// A and B feed the pool P, and B reaches X direct: three of the four arcs cost something and carry only so much.
const PIPED: &str =
    r#"{"version":2,"qualities":[],"sources":[{"name":"A","cost":1,"quality":{}},{"name":"B","cost":2,"quality":{}}],
"pools":[{"name":"P"}],"products":[{"name":"X","price":5,"max":60}],
"arcs":[{"from":"A","to":"P","cost":3,"max":20},["B","P"],{"from":"P","to":"X","cost":-1,"max":30},
{"from":"B","to":"X","cost":2,"max":7}]}"#;

/// Every row of the network that removes half of the sulfur. Its variables are x 0, y 1, w 2, the proportion 3, the pool's quality 4, and
/// quality times flow 5.
const DESULFURED_ROWS: &str = "\
ge 100000000 0 -1
eq 0 0 1 1 -1
ge 100000000 1 -1
ge 100000000 1 -1
ge 0 1 1
eq 0 0 3000000 5 -1
ge 0 1 1500000000 5 -500
ge 0 1 -3000000 5 1
ge 300000000000000 1 -3000000 4 -100000000 5 1
ge 0 1 3000000 5 -1
ge -300000000000000 1 3000000 4 100000000 5 -1
eq -1048576 3 1
eq 0 0 1 2 -1
ge 0 1 1500000000 2 -1500000000
ge 0 2 1048576
ge 104857600000000 1 -1048576 2 1048576 3 -100000000
ge 0 1 1048576 2 -1048576
ge 0 2 -1048576 3 100000000
eq 0 1 -1 2 1
ge 0 2 -1048576 3 100000000
";

/// Every row of the network that removes half of the load. Its variables are x 0, y 1, z 2, w 3, the proportion 4, the pool's quality 5,
/// and quality times flow 6.
const CLEANED_ROWS: &str = "\
ge 60000000 0 -1
ge 60000000 2 -1
eq 0 0 1 1 -1
ge 60000000 1 -1
ge 60000000 1 -1 2 -1
ge 0 1 1 2 1
eq 0 0 30000000 6 -1
ge 0 1 20000000000 2 -5000000000 6 -500
ge 0 1 -15000000000 2 10000000000 6 500
ge 0 1 -30000000 6 1
ge 1800000000000000 1 -30000000 5 -60000000 6 1
ge 0 1 30000000 6 -1
ge -1800000000000000 1 30000000 5 60000000 6 -1
eq -1048576 4 1
eq 0 0 1 3 -1
ge 0 1 20000000000 2 -5000000000 3 -15000000000
ge 0 1 -15000000000 2 10000000000 3 15000000000
ge 0 3 1048576
ge 62914560000000 1 -1048576 3 1048576 4 -60000000
ge 0 1 1048576 3 -1048576
ge 0 3 -1048576 4 60000000
eq 0 1 -1 3 1
ge 0 3 -1048576 4 60000000
";

/// The ends and the cost of each variable of the network of pipes: two feeds, an out, a direct, two paths and two proportions.
const PIPED_VARIABLES: &str = "\
0 20000000 4000000
0 60000000 2000000
0 30000000 -6000000
0 7000000 -1000000
0 20000000 0
0 30000000 0
0 1048576 0
0 1048576 0
";

#[test]
fn rows_count_what_pools_remove(rt: HostRuntime) -> Result<(), Fail> {
    for (file, rows) in [(DESULFURED, DESULFURED_ROWS), (CLEANED, CLEANED_ROWS)] {
        let net = network(rt.alloc(), file)?;
        let text = root_rows(rt.alloc(), &net)?;
        assert_eq!(rt; text.as_str(), rows);
    }
    Ok(())
}

/// The ends and the cost of each variable, a line each.
fn variables_text(alloc: Global, net: &Network, v: &BoxView) -> Result<String, Memory>
    requires { IsView (net_of net.now) v.now }
{
    let mut text = String::new(alloc);
    for var in 0..vars(net) {
        let (low, high) = var_ends(net, v, var);
        let cost = var_cost(net, var);
        text.push_str(format!(in alloc; "{low} {high} {cost}\n")?.as_str())?;
    }
    Ok(text)
}

/// The same in the root box.
fn root_variables(alloc: Global, net: &Network) -> Result<String, Memory> {
    let ends = root_box(alloc, net)?;
    variables_text(alloc, net, &ends.view())
}

#[test]
fn variables_end_where_arcs_do_and_cost_what_arcs_cost(rt: HostRuntime) -> Result<(), Fail> {
    let net = network(rt.alloc(), PIPED)?;
    let text = root_variables(rt.alloc(), &net)?;
    assert_eq!(rt; text.as_str(), PIPED_VARIABLES);
    Ok(())
}
