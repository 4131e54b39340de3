// One record read at its place: a node's words, a case's fields or its test, a binding, a path, a step.
// Rests on the words of the buffer; all that is asked is that the record lies in it, and a read costs the fields read.
ghost use Rattle.std.specs.Prelude.{◌≡◌, ◌+◌, ◌<◌, ◌≤◌, length};
ghost use Rattle.spec_rules.specs.Limits.{node_size, case_size, binding_size, path_size, step_size};
ghost use Rattle.format_records.specs.Records.{kind_in, zero_in, node_word_in, case_number_in, case_length_in, case_child_in, test_in, case_in, binding_in, path_in, step_in};

use base_numbers::{WORD_SIZE, case_kinds, tree_fields};
use base_words::word_at;

// What a case asks. A text is an integer's or a byte string's, by the kind of its case; it starts so far into the pool.
#[derive(Clone, Copy)]
pub enum Test {
    Constr(u16),
    Text { kind: u8, start: u16, count: u16 },
    List(u16),
    Tailed(u16),
}

#[derive(Drop)]
pub struct Case {
    pub test: Test,
    pub child: u16,
}

#[derive(Drop)]
pub struct Binding {
    pub name: u16,
    pub path: u16,
}

// A run of steps.
#[derive(Drop)]
pub struct Path {
    pub first: u16,
    pub count: u16,
}

#[derive(Drop)]
pub struct Step {
    pub kind: u8,
    pub flag: u8,
    pub index: u16,
    pub of: u16,
}

// The kind of a node, a case or a step.
pub fn kind_in(b: &[u8], at: usize) -> u8
    requires { at < length b.now }
    ensures { result ≡ kind_in b.now at }
{
    b[at]
}

// The byte after the kind: a node's and a case's zero byte, a step's flag.
pub fn zero_in(b: &[u8], at: usize) -> u8
    requires { at + 1 < length b.now }
    ensures { result ≡ zero_in b.now at }
{
    b[at + tree_fields::ZERO]
}

// The node's word i of five.
pub fn node_word_in(b: &[u8], at: usize, i: usize) -> u16
    requires { (at + node_size ≤ length b.now) × (i < 5) }
    ensures { result ≡ node_word_in b.now at i }
{
    word_at(b, at + tree_fields::WORDS + WORD_SIZE * i)
}

// A constructor's number, a length, or where a text starts.
pub fn case_number_in(b: &[u8], at: usize) -> u16
    requires { at + case_size ≤ length b.now }
    ensures { result ≡ case_number_in b.now at }
{
    word_at(b, at + tree_fields::CASE_NUMBER)
}

pub fn case_length_in(b: &[u8], at: usize) -> u16
    requires { at + case_size ≤ length b.now }
    ensures { result ≡ case_length_in b.now at }
{
    word_at(b, at + tree_fields::CASE_LENGTH)
}

pub fn case_child_in(b: &[u8], at: usize) -> u16
    requires { at + case_size ≤ length b.now }
    ensures { result ≡ case_child_in b.now at }
{
    word_at(b, at + tree_fields::CASE_CHILD)
}

// What the case asks. A kind that is not known reads as the last.
#[tactic(auto, unfolding(crate::specs::Records::test_in))]
pub fn test_in(b: &[u8], at: usize) -> Test
    requires { at + case_size ≤ length b.now }
    ensures { result ≡ test_in b.now at }
{
    let kind = kind_in(b, at);
    let number = case_number_in(b, at);
    let count = case_length_in(b, at);
    match kind {
        case_kinds::CONSTR => Test::Constr(number),
        case_kinds::INT | case_kinds::BYTES => Test::Text {
            kind,
            start: number,
            count,
        },
        case_kinds::LIST => Test::List(number),
        _ => Test::Tailed(number),
    }
}

pub fn case_in(b: &[u8], at: usize) -> Case
    requires { at + case_size ≤ length b.now }
    ensures { result ≡ case_in b.now at }
{
    Case {
        test: test_in(b, at),
        child: case_child_in(b, at),
    }
}

pub fn binding_in(b: &[u8], at: usize) -> Binding
    requires { at + binding_size ≤ length b.now }
    ensures { result ≡ binding_in b.now at }
{
    Binding {
        name: word_at(b, at),
        path: word_at(b, at + tree_fields::BINDING_PATH),
    }
}

pub fn path_in(b: &[u8], at: usize) -> Path
    requires { at + path_size ≤ length b.now }
    ensures { result ≡ path_in b.now at }
{
    Path {
        first: word_at(b, at),
        count: word_at(b, at + tree_fields::PATH_COUNT),
    }
}

pub fn step_in(b: &[u8], at: usize) -> Step
    requires { at + step_size ≤ length b.now }
    ensures { result ≡ step_in b.now at }
{
    Step {
        kind: b[at],
        flag: b[at + tree_fields::FLAG],
        index: word_at(b, at + tree_fields::STEP_INDEX),
        of: word_at(b, at + tree_fields::STEP_TYPE),
    }
}
