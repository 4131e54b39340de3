// Where each clause is hoisted, and its first leaf in building order: rules 5 to 7 of the scope document over the tree in the arena.
// Scopes are found from the root down, with no places written out. Two passes over the nodes find at each its last leaf and the set of the
// clauses with a leaf there; then each clause costs two ways down the tree. The memory is five bytes a node, of which the four of the sets
// are lent, so that the caller has them afterwards.
#![tactic(auto)]

ghost use Rattle.std.specs.Prelude.{◌≡◌, ◌<◌, ◌≤◌, length};
ghost use Rattle.spec_rules.specs.Limits.{clauses_most, nodes_most};
ghost use Rattle.build_scopes.specs.Marks.{ReadyWith};
ghost use Rattle.build_scopes.specs.Scoped.{Surveyed, with_clause, ScopedWith};

use base_numbers::sheet::CLAUSES_MOST;
use base_numbers::tree::NODES_MOST;
use descent::{first_leaf, get_hoist_path};
use last::mark_last;
use marks::{mark, mark_of};

mod descent;
mod last;
pub mod marks;

// The nodes of a small tree. A table is cleared whole as it is made; most trees are small, so theirs are.
pub const NODES_FEW: usize = 64;

// By clause, the node above which it is hoisted and the node of its first leaf, 1,024 where it has no leaf; how many clauses have one,
// and the lowest that has none, or 32.
#[derive(Clone, Copy)]
pub struct Scopes {
    pub node: [u16; CLAUSES_MOST],
    pub leaf: [u16; CLAUSES_MOST],
    pub hoists: usize,
    pub idle: usize,
}

// Adds the scope of clause c, the clauses after c being done.
fn add_clause(work: &[u8], c: usize, last: &[u8], sets: &[u32], scopes: &mut Scopes)
    requires { Surveyed work.now last.now sets.now × (c < clauses_most) × (scopes.old.hoists < clauses_most) }
    ensures { (h : Surveyed work.now last.now sets.now) → scopes.new ≡ with_clause h.tree c scopes.old }
{
    if mark_of(sets[0], c) == 0 {
        scopes.idle = c;
        return;
    }
    scopes.node[c] = get_hoist_path(work, c, last, sets) as u16;
    scopes.leaf[c] = first_leaf(work, c, sets) as u16;
    scopes.hoists += 1;
}

// With a table of last leaves for N nodes.
fn hoist_paths<const N: usize>(
    work: &[u8],
    nodes: usize,
    clauses: usize,
    sets: &mut [u32],
) -> Scopes
    requires { ReadyWith work.now nodes × (clauses ≤ clauses_most) × (nodes ≤ N) × (N ≤ nodes_most) × (nodes ≤ length sets.old) }
    ensures { (h : ReadyWith work.now nodes) → ScopedWith h.tree clauses sets.new result }
{
    let mut last = [0u8; N];
    mark_last(work, nodes, &mut last);
    mark(work, nodes, sets);
    let none = NODES_MOST as u16;
    let mut scopes = Scopes {
        node: [none; CLAUSES_MOST],
        leaf: [none; CLAUSES_MOST],
        hoists: 0,
        idle: CLAUSES_MOST,
    };
    for c in (0..clauses).rev() {
        add_clause(work, c, &last, sets, &mut scopes);
    }
    scopes
}

// `sets` has room for the nodes, and afterwards the clauses with a leaf at or below each of them.
pub fn get_hoist_paths(work: &[u8], nodes: usize, clauses: usize, sets: &mut [u32]) -> Scopes
    requires { ReadyWith work.now nodes × (clauses ≤ clauses_most) × (nodes ≤ length sets.old) }
    ensures { (h : ReadyWith work.now nodes) → ScopedWith h.tree clauses sets.new result }
{
    if nodes <= NODES_FEW {
        hoist_paths::<NODES_FEW>(work, nodes, clauses, sets)
    } else {
        hoist_paths::<NODES_MOST>(work, nodes, clauses, sets)
    }
}
