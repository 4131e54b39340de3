// For each node the clauses that have a leaf at or below it, as a set with a bit by clause, and what its bits say of one clause.
// A child has a larger number than its parent, so one pass over the nodes from the last to the first finds the sets of them all; it reads
// each node and each case once.
ghost use Rattle.std.specs.Prelude.{◌≡◌, ◌<◌, ◌≤◌, length};
ghost use Rattle.spec_rules.specs.Limits.{clauses_most, nodes_most};
ghost use Rattle.build_arena.specs.Arena.{arena_end};
ghost use Rattle.build_scopes.specs.Marks.{ReadyWith, SetsMarked, CasesInside, SwitchInside, NodeInside, bit_at, column, children_of, union_cases, default_set, node_set, marked_cases, first_marked, marked_default, marked_children, first_child};

use base_numbers::tree::NODES_MOST;
use base_numbers::{node_kinds, node_words};
use build_arena::reading::{case_child, node_kind, node_word};

// Where a switch's cases begin, how many it has with the tail cases, and its default, one more than the node or 0.
#[derive(Drop)]
pub struct Children {
    pub first: usize,
    pub count: usize,
    pub default: usize,
}

pub fn children_of(work: &[u8], k: usize) -> Children
    requires { (arena_end ≤ length work.now) × (k < nodes_most) }
    ensures { result ≡ children_of work.now k }
{
    let first = node_word(work, k, node_words::FIRST_CASE) as usize;
    let cases = node_word(work, k, node_words::CASES) as usize;
    let tails = node_word(work, k, node_words::TAIL_CASES) as usize;
    let default = node_word(work, k, node_words::DEFAULT) as usize;
    Children {
        first,
        count: cases + tails,
        default,
    }
}

// The clauses of `all` and those with a leaf below the n cases from i on.
#[tactic(auto, using(crate::specs::SetsLaws::union_next, crate::specs::SetsLaws::union_end))]
fn union_cases(work: &[u8], i: usize, n: usize, all: u32, sets: &[u32]) -> u32
    requires { CasesInside work.now i n (length sets.now) }
    ensures { result ≡ union_cases work.now sets.now i n all }
{
    let mut set = all;
    for j in i..i + n {
        let child = case_child(work, j) as usize;
        set |= sets[child];
    }
    set
}

#[tactic(auto, unfolding(crate::specs::Marks::default_set))]
fn default_set(sets: &[u32], default: usize) -> u32
    requires { default ≤ length sets.now }
    ensures { result ≡ default_set sets.now default }
{
    if default == 0 {
        return 0;
    }
    sets[default - 1]
}

// The clauses with a leaf at or below node k; the sets of the nodes after k are known.
#[tactic(auto, unfolding(crate::specs::Marks::node_set))]
fn node_set(work: &[u8], k: usize, sets: &[u32]) -> u32
    requires { NodeInside work.now k (length sets.now) }
    ensures { result ≡ node_set work.now sets.now k }
{
    if node_kind(work, k) == node_kinds::LEAF {
        return 1 << node_word(work, k, node_words::CLAUSE);
    }
    let at = children_of(work, k);
    union_cases(
        work,
        at.first,
        at.count,
        default_set(sets, at.default),
        sets,
    )
}

pub(crate) fn mark(work: &[u8], nodes: usize, sets: &mut [u32])
    requires { ReadyWith work.now nodes × (nodes ≤ length sets.old) }
    ensures { (h : ReadyWith work.now nodes) → SetsMarked h.tree 0 sets.new }
{
    for k in (0..nodes).rev() {
        sets[k] = node_set(work, k, sets);
    }
}

// The mark of clause c in a set: 1 where it is in it, or 0.
#[tactic(auto, using(crate::specs::SetsLaws::bit_at_is, crate::specs::SetsLaws::bit_at_most))]
pub(crate) fn mark_of(set: u32, c: usize) -> usize
    requires { c < clauses_most }
    ensures { result ≡ bit_at c set }
{
    ((set >> c) & 1) as usize
}

// How many of the n cases from i on have a child that is marked for clause c.
#[tactic(auto, using(crate::specs::MarksLaws::marked_cases_next, crate::specs::MarksLaws::marked_cases_end, crate::specs::SetsLaws::get_or_column, crate::specs::SetsLaws::bit_at_most))]
fn marked_cases(work: &[u8], i: usize, n: usize, c: usize, sets: &[u32]) -> usize
    requires { CasesInside work.now i n (length sets.now) × (c < clauses_most) }
    ensures { result ≡ marked_cases work.now (column c sets.now) i n }
{
    let mut count = 0;
    for j in i..i + n {
        let child = case_child(work, j) as usize;
        count += mark_of(sets[child], c);
    }
    count
}

// The child of the first of them that is marked, or 1,024. A `for`, which reads each child once: after a `find` the child of the case
// that was found would be read again.
#[tactic(auto, using(crate::specs::MarksLaws::first_marked_next, crate::specs::MarksLaws::first_marked_end, crate::specs::SetsLaws::get_or_column))]
fn first_marked(work: &[u8], i: usize, n: usize, c: usize, sets: &[u32]) -> usize
    requires { CasesInside work.now i n (length sets.now) × (c < clauses_most) }
    ensures { result ≡ first_marked work.now (column c sets.now) i n }
{
    for j in i..i + n {
        let child = case_child(work, j) as usize;
        if mark_of(sets[child], c) == 1 {
            return child;
        }
    }
    NODES_MOST
}

#[tactic(auto, using(crate::specs::SetsLaws::marked_default_column))]
fn marked_default(sets: &[u32], c: usize, default: usize) -> usize
    requires { (default ≤ length sets.now) × (c < clauses_most) }
    ensures { result ≡ marked_default (column c sets.now) default }
{
    mark_of(default_set(sets, default), c)
}

// How many children of switch k are marked for clause c.
#[tactic(auto, unfolding(crate::specs::Marks::marked_children))]
pub(crate) fn marked_children(work: &[u8], k: usize, c: usize, sets: &[u32]) -> usize
    requires { SwitchInside work.now k (length sets.now) × (c < clauses_most) }
    ensures { result ≡ marked_children work.now (column c sets.now) k }
{
    let at = children_of(work, k);
    let cases = marked_cases(work, at.first, at.count, c, sets);
    cases + marked_default(sets, c, at.default)
}

// The child of switch k marked for clause c that was built first: the default, then the cases in order.
#[tactic(auto, unfolding(crate::specs::Marks::first_child))]
pub(crate) fn first_child(work: &[u8], k: usize, c: usize, sets: &[u32]) -> usize
    requires { SwitchInside work.now k (length sets.now) × (c < clauses_most) }
    ensures { result ≡ first_child work.now (column c sets.now) k }
{
    let at = children_of(work, k);
    if 0 < marked_default(sets, c, at.default) {
        return at.default - 1;
    }
    first_marked(work, at.first, at.count, c, sets)
}
