// How far each node is moved in the file: by the hoists that stand before it, of which there are at most 32.
// One pass over the clauses counts the hoists above each node, and one over the nodes adds them up; a byte by node.
ghost use Rattle.std.specs.Prelude.{◌≡◌, ◌≤◌};
ghost use Rattle.spec_rules.specs.Limits.{nodes_most};
ghost use Rattle.build_file_nodes.specs.Model.{node_in, ShiftAsked, HoistsCounted, SumsAsked, SummedUp, Shifted};

use base_numbers::sheet::CLAUSES_MOST;
use base_numbers::tree::NODES_MOST;

// A table of how far each node is moved has one place more, behind the last node.
pub(crate) const SHIFTS: usize = NODES_MOST + 1;

// How many of the clauses are hoisted above each node, in a table of zeros.
fn count_hoists(node: &[u16; CLAUSES_MOST], clauses: usize, shift: &mut [u8; SHIFTS])
    requires { ShiftAsked (node_in node.now) clauses shift.old }
    ensures { HoistsCounted (node_in node.now) clauses shift.new }
{
    for &k in &node[..clauses] {
        shift[usize::from(k)] += 1;
    }
}

// The sums of what the table has before each node.
fn sum_up(nodes: usize, shift: &mut [u8; SHIFTS])
    requires { SumsAsked nodes shift.old }
    ensures { SummedUp nodes shift.old shift.new }
{
    let mut sum = 0;
    for k in 0..=nodes {
        let here = shift[k];
        shift[k] = sum;
        sum += here;
    }
}

// By node how many hoists stand before it; behind the last node, how many there are.
pub(crate) fn find_shift(
    node: &[u16; CLAUSES_MOST],
    clauses: usize,
    nodes: usize,
    shift: &mut [u8; SHIFTS],
)
    requires { ShiftAsked (node_in node.now) clauses shift.old × (nodes ≤ nodes_most) }
    ensures { Shifted (node_in node.now) clauses nodes shift.new }
{
    count_hoists(node, clauses, shift);
    sum_up(nodes, shift);
}
