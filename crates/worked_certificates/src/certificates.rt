//! Certificates of worked networks.

/// Of `worked_networks::ONE_DIRECT`: 100 units at 6 - 9 cost -300 of money, and no plan of this network costs less. It has 160 bytes.
pub const FULL: &str =
    "poolcert 1\nkind gap\nshape 1 0 1 1 0 0 1\nplan 1 1\nweights\noutflows\ndirect 100000000\nsplits 0\nproofs 0\ncost -300000000000000 1\nbound -300000000000000\ngap 0 1\nend\n";

/// No plan obeys where 10 of sulfur 3 are demanded and sulfur 2 is the most. The rows
/// `z - 10000000` and `-1000000 * z`, the first taken 1000000 times, add up to less than 0.
pub const NO_PLAN: &str =
    "poolcert 1\nkind none\nshape 1 0 1 1 0 0 1\nsplits 0\nproofs 1\nproof 0 0 2 2 1000000 3 1\nend\n";

/// Of `worked_networks::TWO_FEEDS`: the zero plan, and two splits. In node 3 the feeds' proportions are at most a half and a quarter, so
/// they don't sum to 1.
pub const TREE: &str =
    "poolcert 1\nkind gap\nshape 2 1 1 1 2 1 0\nplan 1 1\nweights 1 0\noutflows 0\ndirect\nsplits 2\nsplit 0 0 524288\nsplit 1 1 262144\nproofs 1\n\
    proof 3 0 1 11 1\ncost 0 1\nbound -300000000000000\ngap 300000000000000 1\nend\n";

/// The same splits without a plan.
pub const TREE_BOUND: &str =
    "poolcert 1\nkind bound\nshape 2 1 1 1 2 1 0\nsplits 2\nsplit 0 0 524288\nsplit 1 1 262144\nproofs 1\nproof 3 0 1 11 1\nbound -300000000000000\nend\n";
