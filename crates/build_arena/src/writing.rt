// Writing the arena: a record of its number, at its place; or the child of a case that was written before its subtree.
// Each contract says the whole buffer after it.
ghost use Rattle.std.specs.Prelude.{◌≡◌, ◌++◌, ◌+◌, ◌*◌, ◌<◌, ◌≤◌, length};
ghost use Rattle.base_words.specs.Words.{word_bytes};
ghost use Rattle.base_words.specs.Stored.{stored};
ghost use Rattle.spec_rules.specs.Limits.{nodes_most, bindings_most, node_size, case_size, binding_size};
ghost use Rattle.spec_rules.specs.TreeFile.{node_bytes};
ghost use Rattle.format_records.specs.Records.{case_record};
ghost use Rattle.build_arena.specs.Arena.{cases_start, cases_most, bindings_start, arena_end};

use crate::{BINDINGS_START, CASES_START};
use base_numbers::tree::{BINDING_SIZE, CASE_SIZE, NODE_SIZE};
use format_records::reading::Case;
use format_records::writing;

// Node k: its kind and its five words.
pub fn put_node(work: &mut [u8], k: usize, kind: u8, a: u16, b: u16, c: u16, d: u16, e: u16)
    requires { (arena_end ≤ length work.old) × (k < nodes_most) }
    ensures { work.new ≡ stored work.old (node_size * k) (node_bytes kind a b c d e) }
{
    writing::put_node(work, NODE_SIZE * k, kind, a, b, c, d, e);
}

pub fn put_case(work: &mut [u8], i: usize, case: Case)
    requires { (arena_end ≤ length work.old) × (i < cases_most) }
    ensures { work.new ≡ stored work.old (cases_start + case_size * i) (case_record case) }
{
    writing::put_case(work, CASES_START + CASE_SIZE * i, case);
}

// The child of case i.
pub fn put_child(work: &mut [u8], i: usize, child: u16)
    requires { (arena_end ≤ length work.old) × (i < cases_most) }
    ensures { work.new ≡ stored work.old (cases_start + case_size * i + 6) (word_bytes child) }
{
    writing::put_child(work, CASES_START + CASE_SIZE * i, child);
}

pub fn put_binding(work: &mut [u8], i: usize, name: u16, path: u16)
    requires { (arena_end ≤ length work.old) × (i < bindings_most) }
    ensures { work.new ≡ stored work.old (bindings_start + binding_size * i) (word_bytes name ++ word_bytes path) }
{
    writing::put_two_words(work, BINDINGS_START + BINDING_SIZE * i, name, path);
}
