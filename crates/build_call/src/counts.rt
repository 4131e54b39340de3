// What hoisting adds to the tree in the arena: a hoist for each clause with a leaf, with the bindings of its first leaf.
// One look at each clause; refusals 12 and 13 go by these sums.
ghost use Rattle.std.specs.Prelude.{◌≡◌, ◌≤◌, length, get_or};
ghost use Rattle.spec_rules.specs.Limits.{clauses_most};
ghost use Rattle.spec_rules.specs.Searching.{times};
ghost use Rattle.spec_hoist.specs.Trees.{sum};
ghost use Rattle.build_arena.specs.Arena.{arena_end};
ghost use Rattle.build_call.specs.Counts.{is_marked, leaf_bindings};

use base_numbers::node_words;
use base_numbers::sheet::CLAUSES_MOST;
use base_numbers::tree::NODES_MOST;
use build_arena::reading::node_word;
use build_scopes::Scopes;

// How many clauses have a leaf.
pub(crate) fn hoists(leaves: [u8; CLAUSES_MOST], clauses: usize) -> usize
    requires { clauses ≤ clauses_most }
    ensures { result ≡ times (λ c. is_marked (get_or leaves c 0)) 0 clauses }
{
    leaves[..clauses].iter().filter(|mark| **mark != 0).count()
}

// The bindings of a leaf; none where the number is no node's.
fn bindings_of(work: &[u8], leaf: u16) -> usize
    requires { arena_end ≤ length work.now }
    ensures { result ≡ leaf_bindings work.now leaf }
{
    let k = usize::from(leaf);
    if k < NODES_MOST {
        usize::from(node_word(work, k, node_words::BINDINGS))
    } else {
        0
    }
}

// The bindings of all hoists.
pub(crate) fn hoist_bindings(work: &[u8], scopes: Scopes, clauses: usize) -> usize
    requires { (arena_end ≤ length work.now) × (clauses ≤ clauses_most) }
    ensures { result ≡ sum (λ c. leaf_bindings work.now (get_or scopes.leaf c 0)) 0 clauses }
{
    let leaves = &scopes.leaf[..clauses];
    leaves.iter().map(|leaf| bindings_of(work, *leaf)).sum()
}
