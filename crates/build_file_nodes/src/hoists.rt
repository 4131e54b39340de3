// The hoists that stand above a node, in the order of their clauses.
// A node with none is known by how far it and the next node are moved. For another one pass over the clauses finds those hoisted there.
ghost use Rattle.std.specs.Prelude.{◌≡◌, ◌+◌};
ghost use Rattle.spec_rules.specs.Kinds.{hoist_node};
ghost use Rattle.build_file_nodes.specs.Model.{places_of, reach_of, out_of, BoundAsked, bound_out, HoistsAsked, hoists_out};

use crate::Tops;
use crate::nodes::put_bound;
use crate::shift::SHIFTS;
use base_numbers::node_kinds;
use base_numbers::sheet::{CLAUSES_MOST, PATTERNS_MOST};

// A hoist with the clause and the bindings of this leaf, over the node that is written after it.
fn put_hoist(
    work: &[u8],
    leaf: usize,
    tree: &mut [u8],
    start: usize,
    number: &mut [u8; PATTERNS_MOST],
    list: &mut [u8; PATTERNS_MOST],
    tops: Tops,
) -> Tops
    requires { BoundAsked work.now leaf start tree.old (reach_of number.old list.old tops) }
    ensures { out_of tree.new (reach_of number.new list.new result) ≡ bound_out work.now start leaf hoist_node (tops.nodes + 1) (out_of tree.old (reach_of number.old list.old tops)) }
{
    let child = (tops.nodes + 1) as u16;
    put_bound(
        work,
        leaf,
        node_kinds::HOIST,
        child,
        tree,
        start,
        number,
        list,
        tops,
    )
}

// The hoists above node k, the lowest clause outermost.
pub(crate) fn put_hoists(
    work: &[u8],
    k: usize,
    node: &[u16; CLAUSES_MOST],
    leaf: &[u16; CLAUSES_MOST],
    clauses: usize,
    shift: &[u8; SHIFTS],
    tree: &mut [u8],
    start: usize,
    number: &mut [u8; PATTERNS_MOST],
    list: &mut [u8; PATTERNS_MOST],
    tops: Tops,
) -> Tops
    requires { HoistsAsked work.now k (places_of node.now leaf.now) clauses shift.now start tree.old (reach_of number.old list.old tops) }
    ensures { out_of tree.new (reach_of number.new list.new result) ≡ hoists_out work.now start (places_of node.now leaf.now) k 0 clauses (out_of tree.old (reach_of number.old list.old tops)) }
{
    if shift[k] == shift[k + 1] {
        return tops;
    }
    let mut next = tops;
    for c in 0..clauses {
        if usize::from(node[c]) == k {
            next = put_hoist(work, usize::from(leaf[c]), tree, start, number, list, next);
        }
    }
    next
}
