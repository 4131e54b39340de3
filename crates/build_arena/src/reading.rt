// Reading the arena: a record of its number, at its place.
// A number in the room of its section is all that is asked.
ghost use Rattle.std.specs.Prelude.{◌≡◌, ◌<◌, ◌≤◌, length};
ghost use Rattle.spec_rules.specs.Limits.{nodes_most, bindings_most};
ghost use Rattle.build_arena.specs.Arena.{cases_most, arena_end, node_kind, node_word, case_kind, case_number, case_length, case_child, case_of, binding_of};

use crate::{BINDINGS_START, CASES_START};
use base_numbers::tree::{BINDING_SIZE, CASE_SIZE, NODE_SIZE};
use format_records::reading::{
    Binding, Case, binding_in, case_child_in, case_in, case_length_in, case_number_in, kind_in,
    node_word_in,
};

pub fn node_kind(work: &[u8], k: usize) -> u8
    requires { (arena_end ≤ length work.now) × (k < nodes_most) }
    ensures { result ≡ node_kind work.now k }
{
    kind_in(work, NODE_SIZE * k)
}

// The node's word i of five.
pub fn node_word(work: &[u8], k: usize, i: usize) -> u16
    requires { (arena_end ≤ length work.now) × (k < nodes_most) × (i < 5) }
    ensures { result ≡ node_word work.now k i }
{
    node_word_in(work, NODE_SIZE * k, i)
}

pub fn case_kind(work: &[u8], i: usize) -> u8
    requires { (arena_end ≤ length work.now) × (i < cases_most) }
    ensures { result ≡ case_kind work.now i }
{
    kind_in(work, CASES_START + CASE_SIZE * i)
}

pub fn case_number(work: &[u8], i: usize) -> u16
    requires { (arena_end ≤ length work.now) × (i < cases_most) }
    ensures { result ≡ case_number work.now i }
{
    case_number_in(work, CASES_START + CASE_SIZE * i)
}

pub fn case_length(work: &[u8], i: usize) -> u16
    requires { (arena_end ≤ length work.now) × (i < cases_most) }
    ensures { result ≡ case_length work.now i }
{
    case_length_in(work, CASES_START + CASE_SIZE * i)
}

pub fn case_child(work: &[u8], i: usize) -> u16
    requires { (arena_end ≤ length work.now) × (i < cases_most) }
    ensures { result ≡ case_child work.now i }
{
    case_child_in(work, CASES_START + CASE_SIZE * i)
}

pub fn case_at(work: &[u8], i: usize) -> Case
    requires { (arena_end ≤ length work.now) × (i < cases_most) }
    ensures { result ≡ case_of work.now i }
{
    case_in(work, CASES_START + CASE_SIZE * i)
}

pub fn binding_at(work: &[u8], i: usize) -> Binding
    requires { (arena_end ≤ length work.now) × (i < bindings_most) }
    ensures { result ≡ binding_of work.now i }
{
    binding_in(work, BINDINGS_START + BINDING_SIZE * i)
}
