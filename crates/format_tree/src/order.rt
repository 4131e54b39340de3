// "node 0 there, each other node a child exactly once, in pre-order", without a stack: a node's first child is the next node, each
// later child is where the subtree of the child before it ends, and the subtree of node 0 ends where the nodes do.
// A subtree's end is found by going from a node to its last child as far as there is one. This is done for children that are not
// the last alone, so that each node is met once on the way to an end: the cost is that of one pass over nodes and cases.
ghost use Rattle.std.specs.Prelude.{◌≡◌, ◌++◌, ℕ, ◌+◌, ◌<◌, ◌≤◌};
ghost use Rattle.spec_rules.specs.Searching.{every};
ghost use Rattle.spec_rules.specs.TreeReader.{case_children, default_child, nodes_in_pre_order};
ghost use Rattle.format_tree.specs.Reading.{Mapped, Ruled};
ghost use Rattle.format_tree.specs.PreOrder.{last_from, last_child, end_of, chained, children_follow, ChildrenAre};

use crate::layout::TreeMap;
use crate::reading::{case_child, node_kind, node_word};
use base_numbers::{node_kinds, node_words};

// Where the children of a node stand: in a run of cases with a default behind it, or in the node itself.
#[derive(Drop)]
enum Children {
    Cases {
        first: usize,
        count: usize,
        default: usize,
    },
    One(usize),
    Nothing,
}

// Where they stand, by the node's kind.
fn children_of(tree: &[u8], map: TreeMap, k: usize) -> Children
    requires { Ruled tree.now map × (k < map.nodes.count) }
    ensures { ChildrenAre tree.now map k result }
{
    match node_kind(tree, map, k) {
        node_kinds::LEAF => Children::Nothing,
        node_kinds::HOIST => Children::One(node_word(tree, map, k, node_words::CHILD) as usize),
        _ => {
            let first = node_word(tree, map, k, node_words::FIRST_CASE) as usize;
            let cases = node_word(tree, map, k, node_words::CASES) as usize;
            let tails = node_word(tree, map, k, node_words::TAIL_CASES) as usize;
            let default = node_word(tree, map, k, node_words::DEFAULT) as usize;
            Children::Cases {
                first,
                count: cases + tails,
                default,
            }
        }
    }
}

// The last child of a switch with n cases from i on and this default.
fn last_of_switch(tree: &[u8], map: TreeMap, i: usize, n: usize, default: usize) -> usize
    requires { Mapped tree.now map × (1 ≤ n) × (i + n ≤ map.cases.count) }
    ensures { (k : ℕ) → result ≡ last_from k (case_children tree.now i n ++ default_child default) }
{
    if 0 < default {
        default - 1
    } else {
        case_child(tree, map, i + n - 1) as usize
    }
}

// The last child of node k; k itself where it has none.
fn last_child(tree: &[u8], map: TreeMap, k: usize) -> usize
    requires { Ruled tree.now map × (k < map.nodes.count) }
    ensures { result ≡ last_child tree.now k }
{
    let children = children_of(tree, map, k);
    match children {
        Children::Cases {
            first,
            count,
            default,
        } => last_of_switch(tree, map, first, count, default),
        Children::One(child) => child,
        Children::Nothing => k,
    }
}

// The number after the last node of the subtree of k.
fn end_of(tree: &[u8], map: TreeMap, k: usize) -> usize
    requires { Ruled tree.now map × (k < map.nodes.count) }
    ensures { result ≡ end_of tree.now k }
{
    // no counter: the last children are followed as far as they rise
    let mut at = k;
    let mut last = last_child(tree, map, k);
    while at < last {
        at = last;
        last = last_child(tree, map, at);
    }
    at + 1
}

// The children of the n cases from i on: the first is node k + 1, each later one is where the one before it ends.
fn cases_follow(tree: &[u8], map: TreeMap, k: usize, i: usize, n: usize) -> bool
    requires { Ruled tree.now map × (k < map.nodes.count) × (1 ≤ n) × (i + n ≤ map.cases.count) }
    ensures { result ≡ chained tree.now (k + 1) (case_children tree.now i n) }
{
    let mut before = case_child(tree, map, i) as usize;
    if before != k + 1 {
        return false;
    }
    // a for, since it hands on the child that was read: `all` would read each child but the last twice
    for j in i + 1..i + n {
        let child = case_child(tree, map, j) as usize;
        if child != end_of(tree, map, before) {
            return false;
        }
        before = child;
    }
    true
}

// The same with the default after the cases.
fn switch_follows(tree: &[u8], map: TreeMap, k: usize, i: usize, n: usize, default: usize) -> bool
    requires { Ruled tree.now map × (k < map.nodes.count) × (1 ≤ n) × (i + n ≤ map.cases.count) }
    ensures { result ≡ chained tree.now (k + 1) (case_children tree.now i n ++ default_child default) }
{
    cases_follow(tree, map, k, i, n)
        && (default == 0
            || default - 1 == end_of(tree, map, case_child(tree, map, i + n - 1) as usize))
}

// The children of node k stand in this order.
fn children_follow(tree: &[u8], map: TreeMap, k: usize) -> bool
    requires { Ruled tree.now map × (k < map.nodes.count) }
    ensures { result ≡ children_follow tree.now k }
{
    let children = children_of(tree, map, k);
    match children {
        Children::Cases {
            first,
            count,
            default,
        } => switch_follows(tree, map, k, first, count, default),
        Children::One(child) => child == k + 1,
        Children::Nothing => true,
    }
}

// The same of every node.
fn all_follow(tree: &[u8], map: TreeMap) -> bool
    requires { Ruled tree.now map }
    ensures { result ≡ every (children_follow tree.now) 0 map.nodes.count }
{
    // a for, as the passes of records.rt are
    for k in 0..map.nodes.count {
        if !children_follow(tree, map, k) {
            return false;
        }
    }
    true
}

// "node 0 there, each other node a child exactly once, in pre-order"
pub fn nodes_in_pre_order(tree: &[u8], map: TreeMap) -> bool
    requires { Ruled tree.now map }
    ensures { result ≡ nodes_in_pre_order tree.now }
{
    let count = map.nodes.count;
    0 < count && all_follow(tree, map) && end_of(tree, map, 0) == count
}
