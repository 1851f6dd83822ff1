//! Networks of the literature.

/// Haverly's first network: sources A and B feed pool P, which sends to X and Y, and so does C.
pub const HAVERLY_1: &str = r#"{"version":1,"title":"Haverly 1","qualities":["sulfur"],
"sources":[{"name":"A","cost":6,"quality":{"sulfur":3}},
{"name":"B","cost":16,"quality":{"sulfur":1}},
{"name":"C","cost":10,"quality":{"sulfur":2}}],
"pools":[{"name":"P"}],
"products":[{"name":"X","price":9,"max":100,"most":{"sulfur":"2.5"}},
{"name":"Y","price":15,"max":200,"most":{"sulfur":"1.5"}}],
"arcs":[["A","P"],["B","P"],["P","X"],["P","Y"],["C","X"],["C","Y"]]}"#;

/// The second: X takes up to 600.
pub const HAVERLY_2: &str = r#"{"version":1,"title":"Haverly 2","qualities":["sulfur"],
"sources":[{"name":"A","cost":6,"quality":{"sulfur":3}},
{"name":"B","cost":16,"quality":{"sulfur":1}},
{"name":"C","cost":10,"quality":{"sulfur":2}}],
"pools":[{"name":"P"}],
"products":[{"name":"X","price":9,"max":600,"most":{"sulfur":"2.5"}},
{"name":"Y","price":15,"max":200,"most":{"sulfur":"1.5"}}],
"arcs":[["A","P"],["B","P"],["P","X"],["P","Y"],["C","X"],["C","Y"]]}"#;

/// The third: B costs 13.
pub const HAVERLY_3: &str = r#"{"version":1,"title":"Haverly 3","qualities":["sulfur"],
"sources":[{"name":"A","cost":6,"quality":{"sulfur":3}},
{"name":"B","cost":13,"quality":{"sulfur":1}},
{"name":"C","cost":10,"quality":{"sulfur":2}}],
"pools":[{"name":"P"}],
"products":[{"name":"X","price":9,"max":100,"most":{"sulfur":"2.5"}},
{"name":"Y","price":15,"max":200,"most":{"sulfur":"1.5"}}],
"arcs":[["A","P"],["B","P"],["P","X"],["P","Y"],["C","X"],["C","Y"]]}"#;

/// Ben-Tal, Eiger and Gershovitz 1994, problem 4.
pub const BEN_TAL_4: &str = r#"{"version":1,"title":"Ben-Tal 4","qualities":["sulfur"],
"sources":[{"name":"A","cost":6,"quality":{"sulfur":3}},{"name":"B","cost":16,"quality":{"sulfur":1}},
{"name":"C","cost":10,"quality":{"sulfur":2}},{"name":"D","cost":15,"quality":{"sulfur":1},"max":50}],
"pools":[{"name":"P"}],
"products":[{"name":"X","price":9,"max":100,"most":{"sulfur":"2.5"}},
{"name":"Y","price":15,"max":200,"most":{"sulfur":"1.5"}}],
"arcs":[["A","P"],["B","P"],["D","P"],["P","X"],["P","Y"],["C","X"],["C","Y"]]}"#;
