// The cases of a switch, with each child where it comes to stand: a node is moved by the hoists that stand before it.
// One pass over a switch's cases; each reference costs one look into the table of how far nodes are moved.
ghost use Rattle.std.specs.Prelude.{◌≡◌, ◌+◌, ◌*◌, ◌<◌, ◌≤◌, length};
ghost use Rattle.base_words.specs.Stored.{stored};
ghost use Rattle.spec_rules.specs.Limits.{nodes_most, case_size};
ghost use Rattle.build_arena.specs.Arena.{arena_end, cases_most};
ghost use Rattle.build_file_nodes.specs.Model.{CasesAsked, moved_by, moved_case, moved_cases, moved_default};

use crate::shift::SHIFTS;
use base_numbers::tree::CASE_SIZE;
use build_arena::reading::{case_child, case_kind, case_length, case_number};
use format_records::writing::put_case_fields;

// The number of node k moved by so many hoists.
fn move_by(k: usize, by: u8) -> u16
    requires { k ≤ nodes_most }
    ensures { result ≡ k + by }
{
    k as u16 + u16::from(by)
}

// A default, which is one more than its node's number, or 0.
#[tactic(auto, unfolding(crate::specs::Model::moved_default))]
pub(crate) fn moved_default(shift: &[u8; SHIFTS], default: usize) -> u16
    requires { default ≤ nodes_most }
    ensures { result ≡ moved_default (moved_by shift.now) default }
{
    if default == 0 {
        return 0;
    }
    move_by(default, shift[default - 1])
}

// Case i of the arena with another child.
fn put_case(work: &[u8], i: usize, tree: &mut [u8], at: usize, child: u16)
    requires { (arena_end ≤ length work.now) × (i < cases_most) × (at + case_size ≤ length tree.old) }
    ensures { tree.new ≡ stored tree.old at (moved_case work.now i child) }
{
    let kind = case_kind(work, i);
    let number = case_number(work, i);
    let count = case_length(work, i);
    put_case_fields(tree, at, kind, number, count, child);
}

// The count cases from first on, the first of them at `at`.
pub(crate) fn put_cases(
    work: &[u8],
    first: usize,
    count: usize,
    shift: &[u8; SHIFTS],
    tree: &mut [u8],
    at: usize,
)
    requires { CasesAsked work.now first count × (at + case_size * count ≤ length tree.old) }
    ensures { tree.new ≡ stored tree.old at (moved_cases work.now (moved_by shift.now) first count) }
{
    for i in 0..count {
        let child = case_child(work, first + i) as usize;
        let moved = move_by(child, shift[child]);
        put_case(work, first + i, tree, at + CASE_SIZE * i, moved);
    }
}
