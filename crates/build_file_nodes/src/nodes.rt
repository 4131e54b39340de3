// One node of the arena in the tree file: the hoists above it, then its own record with its cases or its bindings.
// What is written so far is known by the tops of the sections; each function answers them anew. A section's start is given with them.
// The path numbers are in two tables that are lent with the tops.
ghost use Rattle.std.specs.Prelude.{◌≡◌};
ghost use Rattle.build_file_nodes.specs.Uses.{uses_of};
ghost use Rattle.build_file_nodes.specs.Model.{moved_by, places_of, reach_of, out_of, BoundAsked, SwitchNodeAsked, PutSwitchNode, SwitchAsked, OwnAsked, NodeAsked, NodesAsked, bound_out, switch_out, own_out, node_out, nodes_out};

use crate::Tops;
use crate::bindings::put_bindings;
use crate::cases::{moved_default, put_cases};
use crate::hoists::put_hoists;
use crate::shift::SHIFTS;
use crate::uses::used;
use base_numbers::sheet::{CLAUSES_MOST, PATTERNS_MOST};
use base_numbers::tree::{BINDING_SIZE, CASE_SIZE, NODE_SIZE};
use base_numbers::{node_kinds, node_words};
use build_arena::reading::{node_kind, node_word};
use build_scopes::marks::children_of;
use format_parts::sections::first_of;
use format_records::writing::put_node;

// Where the sections of cases and bindings start in the file.
#[derive(Clone, Copy)]
pub struct Starts {
    pub cases: usize,
    pub bindings: usize,
}

// A leaf, or a hoist over the child, with the clause and the bindings of the arena's leaf.
#[tactic(auto, unfolding(crate::specs::Model::bound_out))]
pub(crate) fn put_bound(
    work: &[u8],
    leaf: usize,
    kind: u8,
    child: u16,
    tree: &mut [u8],
    start: usize,
    number: &mut [u8; PATTERNS_MOST],
    list: &mut [u8; PATTERNS_MOST],
    tops: Tops,
) -> Tops
    requires { BoundAsked work.now leaf start tree.old (reach_of number.old list.old tops) }
    ensures { out_of tree.new (reach_of number.new list.new result) ≡ bound_out work.now start leaf kind child (out_of tree.old (reach_of number.old list.old tops)) }
{
    let clause = node_word(work, leaf, node_words::CLAUSE);
    let from = node_word(work, leaf, node_words::FIRST_BINDING) as usize;
    let count = node_word(work, leaf, node_words::BINDINGS);
    let n = count as usize;
    let top = tops.bindings;
    let first = first_of(count, top as u16);
    put_node(
        tree,
        NODE_SIZE * tops.nodes,
        kind,
        clause,
        first,
        count,
        child,
        0,
    );
    let at = start + BINDING_SIZE * top;
    let paths = put_bindings(work, from, n, tree, at, number, list, tops.paths);
    Tops {
        nodes: tops.nodes + 1,
        bindings: top + n,
        paths,
        ..tops
    }
}

// The record of a switch or a list switch; the answer is how many paths have a number, with its own.
#[tactic(auto, using(crate::specs::UsesLaws::use_some), unfolding(crate::specs::Model::switch_bytes))]
fn put_switch_node(
    work: &[u8],
    k: usize,
    shift: &[u8; SHIFTS],
    tree: &mut [u8],
    number: &mut [u8; PATTERNS_MOST],
    list: &mut [u8; PATTERNS_MOST],
    tops: Tops,
) -> usize
    requires { SwitchNodeAsked work.now k tree.old (reach_of number.old list.old tops) }
    ensures { PutSwitchNode work.now (moved_by shift.now) k (reach_of number.old list.old tops) tree.old tree.new (uses_of number.new list.new result) }
{
    let path = node_word(work, k, node_words::PATH) as usize;
    let cases = node_word(work, k, node_words::CASES);
    let tails = node_word(work, k, node_words::TAIL_CASES);
    let default = moved_default(shift, node_word(work, k, node_words::DEFAULT) as usize);
    let paths = used(number, list, tops.paths, path);
    let own = u16::from(number[path]) - 1;
    let kind = node_kind(work, k);
    let top = tops.cases as u16;
    put_node(
        tree,
        NODE_SIZE * tops.nodes,
        kind,
        own,
        top,
        cases,
        tails,
        default,
    );
    paths
}

#[tactic(auto, unfolding(crate::specs::Model::switch_out))]
fn put_switch(
    work: &[u8],
    k: usize,
    shift: &[u8; SHIFTS],
    tree: &mut [u8],
    start: usize,
    number: &mut [u8; PATTERNS_MOST],
    list: &mut [u8; PATTERNS_MOST],
    tops: Tops,
) -> Tops
    requires { SwitchAsked work.now k start tree.old (reach_of number.old list.old tops) }
    ensures { out_of tree.new (reach_of number.new list.new result) ≡ switch_out work.now start (moved_by shift.now) k (out_of tree.old (reach_of number.old list.old tops)) }
{
    let run = children_of(work, k);
    let paths = put_switch_node(work, k, shift, tree, number, list, tops);
    let at = start + CASE_SIZE * tops.cases;
    put_cases(work, run.first, run.count, shift, tree, at);
    Tops {
        nodes: tops.nodes + 1,
        cases: tops.cases + run.count,
        paths,
        ..tops
    }
}

#[tactic(auto, unfolding(crate::specs::Model::own_out))]
fn put_own(
    work: &[u8],
    k: usize,
    shift: &[u8; SHIFTS],
    tree: &mut [u8],
    starts: Starts,
    number: &mut [u8; PATTERNS_MOST],
    list: &mut [u8; PATTERNS_MOST],
    tops: Tops,
) -> Tops
    requires { OwnAsked work.now k starts.cases starts.bindings tree.old (reach_of number.old list.old tops) }
    ensures { out_of tree.new (reach_of number.new list.new result) ≡ own_out work.now starts.cases starts.bindings (moved_by shift.now) k (out_of tree.old (reach_of number.old list.old tops)) }
{
    if node_kind(work, k) == node_kinds::LEAF {
        return put_bound(
            work,
            k,
            node_kinds::LEAF,
            0,
            tree,
            starts.bindings,
            number,
            list,
            tops,
        );
    }
    put_switch(work, k, shift, tree, starts.cases, number, list, tops)
}

// Node k with the hoists above it.
fn put_one(
    work: &[u8],
    k: usize,
    node: &[u16; CLAUSES_MOST],
    leaf: &[u16; CLAUSES_MOST],
    clauses: usize,
    shift: &[u8; SHIFTS],
    tree: &mut [u8],
    starts: Starts,
    number: &mut [u8; PATTERNS_MOST],
    list: &mut [u8; PATTERNS_MOST],
    tops: Tops,
) -> Tops
    requires { NodeAsked work.now k (places_of node.now leaf.now) clauses shift.now starts.cases starts.bindings tree.old (reach_of number.old list.old tops) }
    ensures { out_of tree.new (reach_of number.new list.new result) ≡ node_out work.now starts.cases starts.bindings (places_of node.now leaf.now) clauses k (out_of tree.old (reach_of number.old list.old tops)) }
{
    let next = put_hoists(
        work,
        k,
        node,
        leaf,
        clauses,
        shift,
        tree,
        starts.bindings,
        number,
        list,
        tops,
    );
    put_own(work, k, shift, tree, starts, number, list, next)
}

// All nodes, in order.
pub(crate) fn put_nodes(
    work: &[u8],
    nodes: usize,
    node: &[u16; CLAUSES_MOST],
    leaf: &[u16; CLAUSES_MOST],
    clauses: usize,
    shift: &[u8; SHIFTS],
    tree: &mut [u8],
    starts: Starts,
    number: &mut [u8; PATTERNS_MOST],
    list: &mut [u8; PATTERNS_MOST],
    tops: Tops,
) -> Tops
    requires { NodesAsked work.now nodes (places_of node.now leaf.now) clauses shift.now starts.cases starts.bindings tree.old (reach_of number.old list.old tops) }
    ensures { out_of tree.new (reach_of number.new list.new result) ≡ nodes_out work.now starts.cases starts.bindings (places_of node.now leaf.now) clauses 0 nodes (out_of tree.old (reach_of number.old list.old tops)) }
{
    let mut next = tops;
    for k in 0..nodes {
        next = put_one(
            work, k, node, leaf, clauses, shift, tree, starts, number, list, next,
        );
    }
    next
}
