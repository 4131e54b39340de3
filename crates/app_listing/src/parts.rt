// The parts of a node's line: a path by its steps, a case with its test, a default, a binding.
// Each is the rules' text of the record that it reads; the file is one whose records keep the rules.
ghost use Rattle.std.specs.Prelude.{[], ◌∷◌, ◌++◌, ◌+◌, ◌<◌, ◌≤◌, eqb};
ghost use Rattle.spec_rules.specs.TreeReader.{step_at, steps_from, path_at};
ghost use Rattle.spec_rules.specs.Listing.{constr_step_word, decimal, flag_text, step_text, more_steps, path_text, cases_text, bindings_text, default_text};
ghost use Rattle.format_tree.specs.Reading.{Mapped, Ruled};
ghost use Rattle.app_listing.specs.Writing.{Writes};
ghost use Rattle.app_listing.specs.Records.{case_line, binding_line, text_test, test_read, TestInside};

use crate::texts::{put, put_decimal, put_hex, put_numbered, put_text};
use base_numbers::{case_kinds, step_kinds};
use format_records::reading::Test;
use format_tree::layout::TreeMap;
use format_tree::reading::{binding_at, case_at, path_at, step_at};

// ---- paths

fn put_constr_step(out: &mut [u8], at: usize, index: u16, flag: u8) -> usize
    ensures { Writes out.old out.new at result (constr_step_word ++ (decimal index ++ flag_text (eqb flag 1))) }
{
    let end = put_numbered(out, at, b"constr_", index);
    if flag == 1 {
        return put_text(out, end, b"_true");
    }
    put_text(out, end, b"_false")
}

fn put_step(out: &mut [u8], at: usize, tree: &[u8], map: TreeMap, i: usize) -> usize
    requires { Ruled tree.now map × (i < map.steps.count) }
    ensures { Writes out.old out.new at result (step_text (step_at tree.now i)) }
{
    let step = step_at(tree, map, i);
    let kind = step.kind;
    match kind {
        step_kinds::PAIR => put_numbered(out, at, b"pair_", step.index),
        step_kinds::TUPLE => put_numbered(out, at, b"tuple_", step.index),
        step_kinds::CONSTR => put_constr_step(out, at, step.index, step.flag),
        step_kinds::LIST => put_numbered(out, at, b"list_", step.index),
        _ => put_numbered(out, at, b"listtail_", step.index),
    }
}

// The n steps from i on, each behind its `.`.
fn put_more_steps(out: &mut [u8], at: usize, tree: &[u8], map: TreeMap, i: usize, n: usize) -> usize
    requires { Ruled tree.now map × (i + n ≤ map.steps.count) }
    ensures { Writes out.old out.new at result (more_steps (steps_from tree.now i n)) }
{
    let mut end = at;
    for j in 0..n {
        let dot = put(out, end, b'.');
        end = put_step(out, dot, tree, map, i + j);
    }
    end
}

pub fn put_path(out: &mut [u8], at: usize, tree: &[u8], map: TreeMap, p: usize) -> usize
    requires { Ruled tree.now map × (p < map.paths.count) }
    ensures { Writes out.old out.new at result (path_text (path_at tree.now p)) }
{
    let path = path_at(tree, map, p);
    let first = path.first as usize;
    let count = path.count as usize;
    if count == 0 {
        return put(out, at, b'.');
    }
    let end = put_step(out, at, tree, map, first);
    put_more_steps(out, end, tree, map, first + 1, count - 1)
}

// ---- cases

// A word, a number and the bracket that closes a test.
fn put_number_test(out: &mut [u8], at: usize, word: &[u8], n: u16) -> usize
    ensures { Writes out.old out.new at result (word.now ++ (decimal n ++ 41 ∷ [])) }
{
    let end = put_numbered(out, at, word, n);
    put(out, end, b')')
}

fn put_text_test(out: &mut [u8], at: usize, integer: bool, text: &[u8]) -> usize
    ensures { Writes out.old out.new at result (text_test integer text.now) }
{
    if integer {
        let open = put_text(out, at, b"Int(");
        let end = put_text(out, open, text);
        return put(out, end, b')');
    }
    let open = put_text(out, at, b"Bytes(");
    let end = put_hex(out, open, text);
    put(out, end, b')')
}

fn put_test(out: &mut [u8], at: usize, tree: &[u8], map: TreeMap, test: Test) -> usize
    requires { Mapped tree.now map × TestInside map test }
    ensures { Writes out.old out.new at result (test_read tree.now test) }
{
    match test {
        Test::Constr(number) => put_number_test(out, at, b"Constr(", number),
        Test::Text { kind, start, count } => {
            let from = map.pool.start + start as usize;
            let to = from + count as usize;
            put_text_test(out, at, kind == case_kinds::INT, &tree[from..to])
        }
        Test::List(number) => put_number_test(out, at, b"List(", number),
        Test::Tailed(number) => put_number_test(out, at, b"ListWithTail(", number),
    }
}

fn put_case(out: &mut [u8], at: usize, tree: &[u8], map: TreeMap, i: usize) -> usize
    requires { Ruled tree.now map × (i < map.cases.count) }
    ensures { Writes out.old out.new at result (case_line tree.now i) }
{
    let case = case_at(tree, map, i);
    let test = case.test;
    let space = put(out, at, b' ');
    let end = put_test(out, space, tree, map, test);
    let colon = put(out, end, b':');
    put_decimal(out, colon, case.child)
}

pub fn put_cases(out: &mut [u8], at: usize, tree: &[u8], map: TreeMap, i: usize, n: usize) -> usize
    requires { Ruled tree.now map × (i + n ≤ map.cases.count) }
    ensures { Writes out.old out.new at result (cases_text tree.now i n) }
{
    let mut end = at;
    for j in 0..n {
        end = put_case(out, end, tree, map, i + j);
    }
    end
}

// "an absent default is omitted"
pub fn put_default(out: &mut [u8], at: usize, default: u16) -> usize
    ensures { Writes out.old out.new at result (default_text default) }
{
    if default == 0 {
        return at;
    }
    put_numbered(out, at, b" else ", default - 1)
}

// ---- bindings

fn put_binding(out: &mut [u8], at: usize, tree: &[u8], map: TreeMap, b: usize) -> usize
    requires { Ruled tree.now map × (b < map.bindings.count) }
    ensures { Writes out.old out.new at result (binding_line tree.now b) }
{
    let binding = binding_at(tree, map, b);
    let name = put_numbered(out, at, b" n", binding.name);
    let equals = put(out, name, b'=');
    put_path(out, equals, tree, map, binding.path as usize)
}

pub fn put_bindings(
    out: &mut [u8],
    at: usize,
    tree: &[u8],
    map: TreeMap,
    b: usize,
    n: usize,
) -> usize
    requires { Ruled tree.now map × (b + n ≤ map.bindings.count) }
    ensures { Writes out.old out.new at result (bindings_text tree.now b n) }
{
    let mut end = at;
    for j in 0..n {
        end = put_binding(out, end, tree, map, b + j);
    }
    end
}
