// Reading one record of a tree file whose sections are mapped: a node, a case with its test, a binding, a path, a step.
// Rests on the records at a place, and on what a map says of the sections. A node is read of a file whose records keep the rules, since
// what a switch asks is read with it.
ghost use Rattle.std.specs.Prelude.{◌≡◌, ◌<◌};
ghost use Rattle.spec_rules.specs.TreeReader.{tree_bindings_at, tree_paths_at, tree_steps_at, bindings, paths, steps};
ghost use Rattle.spec_rules.specs.TreeReader.{node_kind, node_zero, node_word, case_kind, case_zero, case_number, case_length, case_child};
ghost use Rattle.format_tree.specs.Reading.{BindingsLie, PathsLie, StepsLie, Mapped, Ruled, node_of, test_of, case_of, binding_of, path_of, step_of};

use crate::layout::TreeMap;
use base_numbers::tree::{BINDING_SIZE, CASE_SIZE, NODE_SIZE, PATH_SIZE, STEP_SIZE};
use base_numbers::{node_kinds, node_words};
use format_records::reading::{
    Binding, Case, Path, Step, Test, binding_in, case_child_in, case_in, case_length_in,
    case_number_in, kind_in, node_word_in, path_in, step_in, test_in, zero_in,
};

// A node with its fields. A default is one more than its node's number, and 0 where there is none.
// The cases of a switch are of one kind, so that the test of its first case says what it asks of a part.
#[derive(Drop)]
pub enum Node {
    Switch {
        path: u16,
        first: u16,
        cases: u16,
        default: u16,
        test: Test,
    },
    ListSwitch {
        path: u16,
        first: u16,
        cases: u16,
        tails: u16,
        default: u16,
    },
    Leaf {
        clause: u16,
        first: u16,
        count: u16,
    },
    Hoist {
        clause: u16,
        first: u16,
        count: u16,
        child: u16,
    },
}

pub fn node_kind(tree: &[u8], map: TreeMap, k: usize) -> u8
    requires { Mapped tree.now map × (k < map.nodes.count) }
    ensures { result ≡ node_kind tree.now k }
{
    kind_in(tree, NODE_SIZE * k)
}

pub fn node_zero(tree: &[u8], map: TreeMap, k: usize) -> u8
    requires { Mapped tree.now map × (k < map.nodes.count) }
    ensures { result ≡ node_zero tree.now k }
{
    zero_in(tree, NODE_SIZE * k)
}

// The node's word i of five.
pub fn node_word(tree: &[u8], map: TreeMap, k: usize, i: usize) -> u16
    requires { Mapped tree.now map × (k < map.nodes.count) × (i < 5) }
    ensures { result ≡ node_word tree.now k i }
{
    node_word_in(tree, NODE_SIZE * k, i)
}

pub fn case_kind(tree: &[u8], map: TreeMap, i: usize) -> u8
    requires { Mapped tree.now map × (i < map.cases.count) }
    ensures { result ≡ case_kind tree.now i }
{
    kind_in(tree, map.cases.start + CASE_SIZE * i)
}

pub fn case_zero(tree: &[u8], map: TreeMap, i: usize) -> u8
    requires { Mapped tree.now map × (i < map.cases.count) }
    ensures { result ≡ case_zero tree.now i }
{
    zero_in(tree, map.cases.start + CASE_SIZE * i)
}

pub fn case_number(tree: &[u8], map: TreeMap, i: usize) -> u16
    requires { Mapped tree.now map × (i < map.cases.count) }
    ensures { result ≡ case_number tree.now i }
{
    case_number_in(tree, map.cases.start + CASE_SIZE * i)
}

pub fn case_length(tree: &[u8], map: TreeMap, i: usize) -> u16
    requires { Mapped tree.now map × (i < map.cases.count) }
    ensures { result ≡ case_length tree.now i }
{
    case_length_in(tree, map.cases.start + CASE_SIZE * i)
}

pub fn case_child(tree: &[u8], map: TreeMap, i: usize) -> u16
    requires { Mapped tree.now map × (i < map.cases.count) }
    ensures { result ≡ case_child tree.now i }
{
    case_child_in(tree, map.cases.start + CASE_SIZE * i)
}

// What case i asks.
pub fn test_at(tree: &[u8], map: TreeMap, i: usize) -> Test
    requires { Mapped tree.now map × (i < map.cases.count) }
    ensures { result ≡ test_of tree.now i }
{
    test_in(tree, map.cases.start + CASE_SIZE * i)
}

pub fn case_at(tree: &[u8], map: TreeMap, i: usize) -> Case
    requires { Mapped tree.now map × (i < map.cases.count) }
    ensures { result ≡ case_of tree.now i }
{
    case_in(tree, map.cases.start + CASE_SIZE * i)
}

fn switch_at(tree: &[u8], map: TreeMap, k: usize) -> Node
    requires { Ruled tree.now map × (k < map.nodes.count) × (node_kind tree.now k ≡ 0) }
    ensures { result ≡ node_of tree.now k }
{
    let first = node_word(tree, map, k, node_words::FIRST_CASE);
    Node::Switch {
        path: node_word(tree, map, k, node_words::PATH),
        first,
        cases: node_word(tree, map, k, node_words::CASES),
        default: node_word(tree, map, k, node_words::DEFAULT),
        test: test_at(tree, map, first as usize),
    }
}

// Each kind reads its own words: a walk passes most nodes for one of them.
pub fn node_at(tree: &[u8], map: TreeMap, k: usize) -> Node
    requires { Ruled tree.now map × (k < map.nodes.count) }
    ensures { result ≡ node_of tree.now k }
{
    let kind = node_kind(tree, map, k);
    match kind {
        node_kinds::SWITCH => switch_at(tree, map, k),
        node_kinds::LIST_SWITCH => Node::ListSwitch {
            path: node_word(tree, map, k, node_words::PATH),
            first: node_word(tree, map, k, node_words::FIRST_CASE),
            cases: node_word(tree, map, k, node_words::CASES),
            tails: node_word(tree, map, k, node_words::TAIL_CASES),
            default: node_word(tree, map, k, node_words::DEFAULT),
        },
        node_kinds::LEAF => Node::Leaf {
            clause: node_word(tree, map, k, node_words::CLAUSE),
            first: node_word(tree, map, k, node_words::FIRST_BINDING),
            count: node_word(tree, map, k, node_words::BINDINGS),
        },
        _ => Node::Hoist {
            clause: node_word(tree, map, k, node_words::CLAUSE),
            first: node_word(tree, map, k, node_words::FIRST_BINDING),
            count: node_word(tree, map, k, node_words::BINDINGS),
            child: node_word(tree, map, k, node_words::CHILD),
        },
    }
}

// Binding b, path p and step i, by the start of their section alone: a caller who hands on no more of the map stores no more of it, and asks
// of the file no more than that the section lies in it.
pub fn binding_from(tree: &[u8], start: usize, b: usize) -> Binding
    requires { BindingsLie tree.now × (start ≡ tree_bindings_at tree.now) × (b < bindings tree.now) }
    ensures { result ≡ binding_of tree.now b }
{
    binding_in(tree, start + BINDING_SIZE * b)
}

pub fn binding_at(tree: &[u8], map: TreeMap, b: usize) -> Binding
    requires { Mapped tree.now map × (b < map.bindings.count) }
    ensures { result ≡ binding_of tree.now b }
{
    binding_from(tree, map.bindings.start, b)
}

pub fn path_from(tree: &[u8], start: usize, p: usize) -> Path
    requires { PathsLie tree.now × (start ≡ tree_paths_at tree.now) × (p < paths tree.now) }
    ensures { result ≡ path_of tree.now p }
{
    path_in(tree, start + PATH_SIZE * p)
}

pub fn path_at(tree: &[u8], map: TreeMap, p: usize) -> Path
    requires { Mapped tree.now map × (p < map.paths.count) }
    ensures { result ≡ path_of tree.now p }
{
    path_from(tree, map.paths.start, p)
}

pub fn step_from(tree: &[u8], start: usize, i: usize) -> Step
    requires { StepsLie tree.now × (start ≡ tree_steps_at tree.now) × (i < steps tree.now) }
    ensures { result ≡ step_of tree.now i }
{
    step_in(tree, start + STEP_SIZE * i)
}

pub fn step_at(tree: &[u8], map: TreeMap, i: usize) -> Step
    requires { Mapped tree.now map × (i < map.steps.count) }
    ensures { result ≡ step_of tree.now i }
{
    step_from(tree, map.steps.start, i)
}
