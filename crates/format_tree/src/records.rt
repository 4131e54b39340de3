// The rules of single records: "known kinds, zero bytes and unused fields 0, .. parts inside their sections; at most 192 bindings a
// node". Each function is the rules' condition of its name; a record that nothing uses is asked all the same.
// The passes are `for` and no `all`: with closures a walk of a large tree takes 3% more instructions, and misses the bar of a twentieth.
ghost use Rattle.std.specs.Prelude.{◌≡◌, true, ◌+◌, ◌<◌, ◌≤◌};
ghost use Rattle.spec_rules.specs.Searching.{every};
ghost use Rattle.spec_rules.specs.TreeReader.{Switch, List_switch, Leaf, Hoist_node, node_of_kind, case_kind, case_kind_of, case_of_kind, is_kind, switch_parts, switch_cases, list_switch_cases, binding_parts, node_keeps_rules, case_keeps_rules, binding_keeps_rules, path_keeps_rules, step_keeps_rules};
ghost use Rattle.format_tree.specs.Reading.{Mapped};

use crate::layout::TreeMap;
use crate::reading::{
    binding_at, case_child, case_kind, case_length, case_number, case_zero, node_kind, node_word,
    node_zero, path_at, step_at,
};
use base_numbers::tree::NODE_BINDINGS_MOST;
use base_numbers::{case_kinds, node_kinds, node_words, step_kinds};
use format_parts::sections::run_in;

// ---- nodes

fn switch_parts(tree: &[u8], map: TreeMap, k: usize) -> bool
    requires { Mapped tree.now map × (k < map.nodes.count) }
    ensures { result ≡ switch_parts tree.now k }
{
    let path = node_word(tree, map, k, node_words::PATH) as usize;
    let first = node_word(tree, map, k, node_words::FIRST_CASE) as usize;
    let cases = node_word(tree, map, k, node_words::CASES) as usize;
    let tails = node_word(tree, map, k, node_words::TAIL_CASES) as usize;
    let default = node_word(tree, map, k, node_words::DEFAULT) as usize;
    path < map.paths.count
        && run_in(first, cases + tails, map.cases.count)
        && default <= map.nodes.count
}

// Each of the n cases from i on is of this kind.
fn cases_of_kind(tree: &[u8], map: TreeMap, kind: u8, i: usize, n: usize) -> bool
    requires { Mapped tree.now map × (i + n ≤ map.cases.count) }
    ensures { result ≡ every (is_kind tree.now kind) i n }
{
    for j in i..i + n {
        if case_kind(tree, map, j) != kind {
            return false;
        }
    }
    true
}

fn switch_cases(tree: &[u8], map: TreeMap, k: usize) -> bool
    requires { Mapped tree.now map × (k < map.nodes.count) × (switch_parts tree.now k ≡ true) }
    ensures { result ≡ switch_cases tree.now k }
{
    let first = node_word(tree, map, k, node_words::FIRST_CASE) as usize;
    let cases = node_word(tree, map, k, node_words::CASES) as usize;
    let tails = node_word(tree, map, k, node_words::TAIL_CASES) as usize;
    // first, since the kind is that of the first case, and is read once for all of them
    if cases < 1 || tails != 0 {
        return false;
    }
    let kind = case_kind(tree, map, first);
    kind <= case_kinds::BYTES && cases_of_kind(tree, map, kind, first, cases)
}

fn list_switch_cases(tree: &[u8], map: TreeMap, k: usize) -> bool
    requires { Mapped tree.now map × (k < map.nodes.count) × (switch_parts tree.now k ≡ true) }
    ensures { result ≡ list_switch_cases tree.now k }
{
    let first = node_word(tree, map, k, node_words::FIRST_CASE) as usize;
    let cases = node_word(tree, map, k, node_words::CASES) as usize;
    let tails = node_word(tree, map, k, node_words::TAIL_CASES) as usize;
    1 <= cases + tails
        && cases_of_kind(tree, map, case_kinds::LIST, first, cases)
        && cases_of_kind(tree, map, case_kinds::LIST_WITH_TAIL, first + cases, tails)
}

fn binding_parts(tree: &[u8], map: TreeMap, k: usize) -> bool
    requires { Mapped tree.now map × (k < map.nodes.count) }
    ensures { result ≡ binding_parts tree.now k }
{
    let first = node_word(tree, map, k, node_words::FIRST_BINDING) as usize;
    let count = node_word(tree, map, k, node_words::BINDINGS) as usize;
    count <= NODE_BINDINGS_MOST && run_in(first, count, map.bindings.count)
}

fn switch_keeps_rules(tree: &[u8], map: TreeMap, k: usize) -> bool
    requires { Mapped tree.now map × (k < map.nodes.count) }
    ensures { result ≡ node_of_kind tree.now k Switch }
{
    switch_parts(tree, map, k) && switch_cases(tree, map, k)
}

fn list_switch_keeps_rules(tree: &[u8], map: TreeMap, k: usize) -> bool
    requires { Mapped tree.now map × (k < map.nodes.count) }
    ensures { result ≡ node_of_kind tree.now k List_switch }
{
    switch_parts(tree, map, k) && list_switch_cases(tree, map, k)
}

fn leaf_keeps_rules(tree: &[u8], map: TreeMap, k: usize) -> bool
    requires { Mapped tree.now map × (k < map.nodes.count) }
    ensures { result ≡ node_of_kind tree.now k Leaf }
{
    binding_parts(tree, map, k)
        && node_word(tree, map, k, node_words::CHILD) == 0
        && node_word(tree, map, k, node_words::UNUSED) == 0
}

fn hoist_keeps_rules(tree: &[u8], map: TreeMap, k: usize) -> bool
    requires { Mapped tree.now map × (k < map.nodes.count) }
    ensures { result ≡ node_of_kind tree.now k Hoist_node }
{
    binding_parts(tree, map, k)
        && (node_word(tree, map, k, node_words::CHILD) as usize) < map.nodes.count
        && node_word(tree, map, k, node_words::UNUSED) == 0
}

fn node_keeps_rules(tree: &[u8], map: TreeMap, k: usize) -> bool
    requires { Mapped tree.now map × (k < map.nodes.count) }
    ensures { result ≡ node_keeps_rules tree.now k }
{
    node_zero(tree, map, k) == 0
        && match node_kind(tree, map, k) {
            node_kinds::SWITCH => switch_keeps_rules(tree, map, k),
            node_kinds::LIST_SWITCH => list_switch_keeps_rules(tree, map, k),
            node_kinds::LEAF => leaf_keeps_rules(tree, map, k),
            node_kinds::HOIST => hoist_keeps_rules(tree, map, k),
            _ => false,
        }
}

pub fn nodes_keep_rules(tree: &[u8], map: TreeMap) -> bool
    requires { Mapped tree.now map }
    ensures { result ≡ every (node_keeps_rules tree.now) 0 map.nodes.count }
{
    for k in 0..map.nodes.count {
        if !node_keeps_rules(tree, map, k) {
            return false;
        }
    }
    true
}

// ---- cases

fn case_of_kind(tree: &[u8], map: TreeMap, i: usize) -> bool
    requires { Mapped tree.now map × (i < map.cases.count) }
    ensures { result ≡ case_of_kind tree.now i (case_kind_of (case_kind tree.now i)) }
{
    let number = case_number(tree, map, i) as usize;
    let length = case_length(tree, map, i) as usize;
    match case_kind(tree, map, i) {
        case_kinds::INT | case_kinds::BYTES => run_in(number, length, map.pool.count),
        case_kinds::CONSTR | case_kinds::LIST | case_kinds::LIST_WITH_TAIL => length == 0,
        _ => false,
    }
}

fn case_keeps_rules(tree: &[u8], map: TreeMap, i: usize) -> bool
    requires { Mapped tree.now map × (i < map.cases.count) }
    ensures { result ≡ case_keeps_rules tree.now i }
{
    case_zero(tree, map, i) == 0
        && case_of_kind(tree, map, i)
        && (case_child(tree, map, i) as usize) < map.nodes.count
}

pub fn cases_keep_rules(tree: &[u8], map: TreeMap) -> bool
    requires { Mapped tree.now map }
    ensures { result ≡ every (case_keeps_rules tree.now) 0 map.cases.count }
{
    for i in 0..map.cases.count {
        if !case_keeps_rules(tree, map, i) {
            return false;
        }
    }
    true
}

// ---- bindings, paths and steps

fn binding_keeps_rules(tree: &[u8], map: TreeMap, b: usize) -> bool
    requires { Mapped tree.now map × (b < map.bindings.count) }
    ensures { result ≡ binding_keeps_rules tree.now b }
{
    (binding_at(tree, map, b).path as usize) < map.paths.count
}

pub fn bindings_keep_rules(tree: &[u8], map: TreeMap) -> bool
    requires { Mapped tree.now map }
    ensures { result ≡ every (binding_keeps_rules tree.now) 0 map.bindings.count }
{
    for b in 0..map.bindings.count {
        if !binding_keeps_rules(tree, map, b) {
            return false;
        }
    }
    true
}

fn path_keeps_rules(tree: &[u8], map: TreeMap, p: usize) -> bool
    requires { Mapped tree.now map × (p < map.paths.count) }
    ensures { result ≡ path_keeps_rules tree.now p }
{
    let path = path_at(tree, map, p);
    run_in(path.first as usize, path.count as usize, map.steps.count)
}

pub fn paths_keep_rules(tree: &[u8], map: TreeMap) -> bool
    requires { Mapped tree.now map }
    ensures { result ≡ every (path_keeps_rules tree.now) 0 map.paths.count }
{
    for p in 0..map.paths.count {
        if !path_keeps_rules(tree, map, p) {
            return false;
        }
    }
    true
}

fn step_keeps_rules(tree: &[u8], map: TreeMap, i: usize) -> bool
    requires { Mapped tree.now map × (i < map.steps.count) }
    ensures { result ≡ step_keeps_rules tree.now i }
{
    let step = step_at(tree, map, i);
    step.kind <= step_kinds::LISTTAIL
        && (step.flag == 0 || step.flag == 1 && step.kind == step_kinds::CONSTR)
}

pub fn steps_keep_rules(tree: &[u8], map: TreeMap) -> bool
    requires { Mapped tree.now map }
    ensures { result ≡ every (step_keeps_rules tree.now) 0 map.steps.count }
{
    for i in 0..map.steps.count {
        if !step_keeps_rules(tree, map, i) {
            return false;
        }
    }
    true
}
