// For each node the clause of the leaf that is visited last at or below it, on which the step-back notes turn: a byte by node.
// One pass over the nodes from the last to the first: a switch has the byte of its last child, which has a larger number.
ghost use Rattle.std.specs.Prelude.{◌≡◌, ◌≤◌, length};
ghost use Rattle.build_scopes.specs.Marks.{ReadyWith, LastMarked, SwitchInside, NodeInside, last_child, last_of};

use crate::marks::children_of;
use base_numbers::{node_kinds, node_words};
use build_arena::reading::{case_child, node_kind, node_word};

// The child of switch k that is visited last: the default, or the last of the cases.
#[tactic(auto, unfolding(crate::specs::Marks::last_child))]
fn last_child(work: &[u8], k: usize, nodes: usize) -> usize
    requires { SwitchInside work.now k nodes }
    ensures { result ≡ last_child work.now k }
{
    let at = children_of(work, k);
    if at.default == 0 {
        return case_child(work, at.first + at.count - 1) as usize;
    }
    at.default - 1
}

// The clause of the leaf visited last at or below node k; those of the nodes after k are known.
#[tactic(auto, unfolding(crate::specs::Marks::last_of))]
fn last_of(work: &[u8], k: usize, last: &[u8]) -> u8
    requires { NodeInside work.now k (length last.now) }
    ensures { result ≡ last_of work.now last.now k }
{
    if node_kind(work, k) == node_kinds::LEAF {
        return node_word(work, k, node_words::CLAUSE) as u8;
    }
    let child = last_child(work, k, last.len());
    last[child]
}

pub(crate) fn mark_last(work: &[u8], nodes: usize, last: &mut [u8])
    requires { ReadyWith work.now nodes × (nodes ≤ length last.old) }
    ensures { (h : ReadyWith work.now nodes) → LastMarked h.tree 0 last.new }
{
    for k in (0..nodes).rev() {
        last[k] = last_of(work, k, last);
    }
}
