// One record written at its place, or the child of a case that was written before its subtree.
// Rests on the words of the buffer; each contract says the whole buffer after it.
ghost use Rattle.std.specs.Prelude.{◌≡◌, [], ◌∷◌, ◌++◌, ◌+◌, ◌<◌, ◌≤◌, length};
ghost use Rattle.base_words.specs.Words.{word_bytes};
ghost use Rattle.base_words.specs.Stored.{stored};
ghost use Rattle.spec_rules.specs.Limits.{node_size, case_size, step_size};
ghost use Rattle.spec_rules.specs.TreeFile.{node_bytes};
ghost use Rattle.spec_file.specs.RecordsLaws.{case_fields};
ghost use Rattle.format_records.specs.Records.{case_record, step_record};

use crate::reading::{Case, Test};
use base_numbers::{WORD_SIZE, case_kinds, tree_fields};
use base_words::put_word;

// The kind and the byte after it, with which a node, a case and a step begin.
fn put_head(b: &mut [u8], at: usize, kind: u8, next: u8)
    requires { at + 1 < length b.old }
    ensures { b.new ≡ stored b.old at (kind ∷ next ∷ []) }
{
    b[at] = kind;
    b[at + tree_fields::ZERO] = next;
}

// A binding's name and path, or a path's first step and count.
pub fn put_two_words(b: &mut [u8], at: usize, x: u16, y: u16)
    requires { at + 3 < length b.old }
    ensures { b.new ≡ stored b.old at (word_bytes x ++ word_bytes y) }
{
    put_word(b, at, x);
    put_word(b, at + WORD_SIZE, y);
}

// A node: its kind and its five words.
pub fn put_node(b: &mut [u8], at: usize, kind: u8, x: u16, y: u16, z: u16, u: u16, v: u16)
    requires { at + node_size ≤ length b.old }
    ensures { b.new ≡ stored b.old at (node_bytes kind x y z u v) }
{
    let words = at + tree_fields::WORDS;
    put_head(b, at, kind, 0);
    put_two_words(b, words, x, y);
    put_two_words(b, words + 2 * WORD_SIZE, z, u);
    put_word(b, words + 4 * WORD_SIZE, v);
}

// A case by its fields.
pub fn put_case_fields(b: &mut [u8], at: usize, kind: u8, number: u16, count: u16, child: u16)
    requires { at + case_size ≤ length b.old }
    ensures { b.new ≡ stored b.old at (case_fields kind number count child) }
{
    put_head(b, at, kind, 0);
    put_two_words(b, at + tree_fields::CASE_NUMBER, number, count);
    put_word(b, at + tree_fields::CASE_CHILD, child);
}

#[tactic(auto, unfolding(crate::specs::Records::case_record))]
pub fn put_case(b: &mut [u8], at: usize, case: Case)
    requires { at + case_size ≤ length b.old }
    ensures { b.new ≡ stored b.old at (case_record case) }
{
    let child = case.child;
    match case.test {
        Test::Constr(number) => put_case_fields(b, at, case_kinds::CONSTR, number, 0, child),
        Test::Text { kind, start, count } => put_case_fields(b, at, kind, start, count, child),
        Test::List(count) => put_case_fields(b, at, case_kinds::LIST, count, 0, child),
        Test::Tailed(count) => put_case_fields(b, at, case_kinds::LIST_WITH_TAIL, count, 0, child),
    }
}

// The child of the case alone.
pub fn put_child(b: &mut [u8], at: usize, child: u16)
    requires { at + case_size ≤ length b.old }
    ensures { b.new ≡ stored b.old (at + 6) (word_bytes child) }
{
    put_word(b, at + tree_fields::CASE_CHILD, child);
}

pub fn put_step(b: &mut [u8], at: usize, kind: u8, flag: u8, index: u16, of: u16)
    requires { at + step_size ≤ length b.old }
    ensures { b.new ≡ stored b.old at (step_record kind flag index of) }
{
    put_head(b, at, kind, flag);
    put_two_words(b, at + tree_fields::STEP_INDEX, index, of);
}
