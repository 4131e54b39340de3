// For one clause with a leaf, the node above which it is hoisted and its first leaf in building order, each by one way down from the
// root. A way down reads each node on it and that node's cases once.
ghost use Rattle.std.specs.Prelude.{◌≡◌};
ghost use Rattle.build_scopes.specs.Numbers.{scope_number, first_number};
ghost use Rattle.build_scopes.specs.Marks.{ClauseMarks, ScopeMarks, ScopeInside, column, scope_here};

use crate::marks::{first_child, marked_children};
use base_numbers::node_kinds;
use build_arena::reading::node_kind;

// Whether node k is the scope of clause c, which has a leaf there: c's leaf is visited last, or two children have a leaf of c.
#[tactic(auto, unfolding(crate::specs::Marks::scope_here))]
fn is_scope(work: &[u8], k: usize, c: usize, last: &[u8], sets: &[u32]) -> bool
    requires { ScopeInside work.now last.now sets.now c k }
    ensures { result ≡ scope_here work.now last.now (column c sets.now) c k }
{
    c == usize::from(last[k]) || 2 <= marked_children(work, k, c, sets)
}

// The node above which clause c is hoisted.
pub(crate) fn get_hoist_path(work: &[u8], c: usize, last: &[u8], sets: &[u32]) -> usize
    requires { ScopeMarks work.now c last.now sets.now }
    ensures { (h : ScopeMarks work.now c last.now sets.now) → result ≡ scope_number c 0 h.marks.tree }
{
    let mut k = 0;
    while !is_scope(work, k, c, last, sets) {
        k = first_child(work, k, c, sets);
    }
    k
}

// The leaf of clause c that was built first: default, cases, tail cases. A loop of its own: with the test where the way ends as a closure,
// the contract of the two would be longer than both.
pub(crate) fn first_leaf(work: &[u8], c: usize, sets: &[u32]) -> usize
    requires { ClauseMarks work.now c sets.now }
    ensures { (h : ClauseMarks work.now c sets.now) → result ≡ first_number c 0 h.tree }
{
    let mut k = 0;
    while node_kind(work, k) != node_kinds::LEAF {
        k = first_child(work, k, c, sets);
    }
    k
}
