// The nodes, cases and bindings of the tree file, from the tree in the arena and the scopes of its clauses.
// One pass over the arena's nodes: above each node the hoists that its scopes put there, then the node, with its references moved to
// where nodes come to stand, which is found first. The tables by clause, by node and by class are lent from one function to the next;
// only counts go by value.
#![tactic(auto)]

ghost use Rattle.std.specs.Prelude.{◌≡◌, ◌≤◌, length};
ghost use Rattle.spec_rules.specs.Limits.{patterns_most, tree_room};
ghost use Rattle.build_file_nodes.specs.Written.{WritingAsked, WritesHoisted};

use base_numbers::sheet::PATTERNS_MOST;
use base_numbers::tree::{CASE_SIZE, NODE_SIZE};
use build_scopes::Scopes;
use nodes::{Starts, put_nodes};
use shift::{SHIFTS, find_shift};

mod bindings;
mod cases;
mod hoists;
mod nodes;
mod shift;
mod uses;

// How many nodes, cases and bindings are written, and how many paths have a number.
#[derive(Clone, Copy)]
pub struct Tops {
    pub nodes: usize,
    pub cases: usize,
    pub bindings: usize,
    pub paths: usize,
}

// The three sections from 0 on, of the tree with so many nodes and cases before it is hoisted. The answer is how many nodes, cases
// and bindings are written and how many paths they use; `classes` has the classes of those paths, in the order of their numbers.
pub fn write_nodes(
    work: &[u8],
    nodes: usize,
    cases: usize,
    scopes: Scopes,
    clauses: usize,
    tree: &mut [u8],
    classes: &mut [u8; PATTERNS_MOST],
) -> Tops
    requires { WritingAsked work.now nodes cases scopes clauses × (tree_room ≤ length tree.old) × (length classes.old ≡ patterns_most) }
    ensures { (h : WritingAsked work.now nodes cases scopes clauses) → WritesHoisted h tree.old tree.new classes.new result }
{
    let second = NODE_SIZE * (nodes + scopes.hoists);
    let third = second + CASE_SIZE * cases;
    let mut shift = [0u8; SHIFTS];
    find_shift(&scopes.node, clauses, nodes, &mut shift);
    let mut number = [0u8; PATTERNS_MOST];
    let starts = Starts {
        cases: second,
        bindings: third,
    };
    let none = Tops {
        nodes: 0,
        cases: 0,
        bindings: 0,
        paths: 0,
    };
    put_nodes(
        work,
        nodes,
        &scopes.node,
        &scopes.leaf,
        clauses,
        &shift,
        tree,
        starts,
        &mut number,
        classes,
        none,
    )
}
