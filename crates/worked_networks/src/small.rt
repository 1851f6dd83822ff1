//! Small networks, each for what its comment says, and one of the size of a trial.

/// Source A sells up to 100 of sulfur 3 at 6, and product X pays 9 for up to 100 of sulfur up to 3.
pub const ONE_DIRECT: &str =
    r#"{"version":1,"qualities":["sulfur"],"sources":[{"name":"A","cost":6,"max":100,"quality":{"sulfur":3}}],
"products":[{"name":"X","price":9,"max":100,"most":{"sulfur":3}}],"arcs":[["A","X"]]}"#;

/// Its canonical text, from a script in Python that was written from the page on formats.
pub const CANONICAL_ONE_DIRECT: &[u8] =
    b"{\"arcs\":[[\"A\",\"X\"]],\"pools\":[],\"products\":[{\"least\":{},\"max\":100,\"min\":0,\"most\":{\"sulfur\":3},\"name\":\"X\",\
    \"price\":9}],\"qualities\":[\"sulfur\"],\"sources\":[{\"cost\":6,\"max\":100,\"name\":\"A\",\"quality\":{\"sulfur\":3}}],\"version\":1}";

/// Of version 2: source A feeds pool P, which removes half of the sulfur and sends to X. A unit along the feed costs 0.5, and it carries
/// 80 at most.
pub const DESULFURED: &str =
    r#"{"version":2,"qualities":["sulfur"],"sources":[{"name":"A","cost":6,"max":100,"quality":{"sulfur":3}}],
"pools":[{"name":"P","ratio":{"sulfur":500}}],"products":[{"name":"X","price":9,"max":100,"most":{"sulfur":"1.5"}}],
"arcs":[{"from":"A","to":"P","cost":"0.5","max":80},["P","X"]]}"#;

/// Its canonical text, by hand from the page on formats.
pub const CANONICAL_DESULFURED: &[u8] =
    b"{\"arcs\":[{\"cost\":\"0.5\",\"from\":\"A\",\"max\":80,\"to\":\"P\"},{\"cost\":0,\"from\":\"P\",\"to\":\"X\"}],\
    \"pools\":[{\"max\":100,\"name\":\"P\",\"ratio\":{\"sulfur\":500}}],\"products\":[{\"least\":{},\"max\":100,\"min\":0,\
    \"most\":{\"sulfur\":\"1.5\"},\"name\":\"X\",\"price\":9}],\"qualities\":[\"sulfur\"],\
    \"sources\":[{\"cost\":6,\"max\":100,\"name\":\"A\",\"quality\":{\"sulfur\":3}}],\"version\":2}";

/// Sources A and B feed pool P, which sends at most 100 to X, of any quality.
pub const TWO_FEEDS: &str =
    r#"{"version":1,"qualities":["sulfur"],"sources":[{"name":"A","cost":6,"quality":{"sulfur":3}},
{"name":"B","cost":16,"quality":{"sulfur":1}}],"pools":[{"name":"P"}],
"products":[{"name":"X","price":9,"max":100}],"arcs":[["A","P"],["B","P"],["P","X"]]}"#;

/// A feeds pool P, and B the pools P and R; P sends to X and Y, and R to Y; A sends to Y, and B to X. There are two
/// qualities, a minimum, and limits of both sides.
pub const TWO_POOLS: &str = r#"{"version":1,"qualities":["sulfur","lead"],
"sources":[{"name":"A","cost":6,"max":40,"quality":{"sulfur":3,"lead":"0.9"}},
{"name":"B","cost":16,"quality":{"sulfur":1,"lead":"0.5"}}],
"pools":[{"name":"P"},{"name":"R","max":70}],
"products":[{"name":"X","price":9,"min":5,"max":100,"least":{"sulfur":"1.5","lead":"0.6"},"most":{"sulfur":"2.5"}},
{"name":"Y","price":15,"max":200,"most":{"lead":"0.8"}}],
"arcs":[["A","P"],["B","R"],["B","P"],["P","X"],["R","Y"],["P","Y"],["A","Y"],["B","X"]]}"#;

/// One source and one product, whose sulfur is 2^36 millionths apart, and a direct that carries up to 2^39.
pub const FAR_APART: &str = r#"{"version":1,"qualities":["sulfur"],
"sources":[{"name":"S","cost":0,"max":"549755.813888","quality":{"sulfur":"-68719.476736"}}],
"products":[{"name":"T","price":0,"max":"549755.813888","most":{"sulfur":0}}],"arcs":[["S","T"]]}"#;

/// As many nodes and arcs as the networks of trials have: ten sources, each of which feeds two of three pools; each pool sends
/// to each of six products, and six sources send to a product each. There are two qualities.
pub const AS_TRIALS: &str = r#"{"version":1,"qualities":["K0","K1"],
"sources":[{"name":"S0","cost":5,"quality":{"K0":1,"K1":2}},
{"name":"S1","cost":5,"quality":{"K0":1,"K1":2}},
{"name":"S2","cost":5,"quality":{"K0":1,"K1":2}},
{"name":"S3","cost":5,"quality":{"K0":1,"K1":2}},
{"name":"S4","cost":5,"quality":{"K0":1,"K1":2}},
{"name":"S5","cost":5,"quality":{"K0":1,"K1":2}},
{"name":"S6","cost":5,"quality":{"K0":1,"K1":2}},
{"name":"S7","cost":5,"quality":{"K0":1,"K1":2}},
{"name":"S8","cost":5,"quality":{"K0":1,"K1":2}},
{"name":"S9","cost":5,"quality":{"K0":1,"K1":2}}],
"pools":[{"name":"P0"},{"name":"P1"},{"name":"P2"}],
"products":[{"name":"X0","price":15,"max":50,"most":{"K0":"1.5","K1":"2.5"}},
{"name":"X1","price":15,"max":50,"most":{"K0":"1.5","K1":"2.5"}},
{"name":"X2","price":15,"max":50,"most":{"K0":"1.5","K1":"2.5"}},
{"name":"X3","price":15,"max":50,"most":{"K0":"1.5","K1":"2.5"}},
{"name":"X4","price":15,"max":50,"most":{"K0":"1.5","K1":"2.5"}},
{"name":"X5","price":15,"max":50,"most":{"K0":"1.5","K1":"2.5"}}],
"arcs":[["S0","P0"],["S0","P1"],["S1","P1"],["S1","P2"],["S2","P0"],["S2","P2"],["S3","P0"],["S3","P1"],["S4","P1"],
["S4","P2"],["S5","P0"],["S5","P2"],["S6","P0"],["S6","P1"],["S7","P1"],["S7","P2"],["S8","P0"],["S8","P2"],
["S9","P0"],["S9","P1"],["P0","X0"],["P1","X0"],["P2","X0"],["S0","X0"],["P0","X1"],["P1","X1"],["P2","X1"],
["S1","X1"],["P0","X2"],["P1","X2"],["P2","X2"],["S2","X2"],["P0","X3"],["P1","X3"],["P2","X3"],["S3","X3"],
["P0","X4"],["P1","X4"],["P2","X4"],["S4","X4"],["P0","X5"],["P1","X5"],["P2","X5"],["S5","X5"]]}"#;
