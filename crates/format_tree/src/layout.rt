// Where the sections of a tree file start and how many records each has: "the length true, starts rising from 0, whole records".
// Rests on the words of the trailer alone.
ghost use Rattle.std.specs.Prelude.{◌≡◌, ◌≤◌, length};
ghost use Rattle.spec_rules.specs.Limits.{tree_trailer};
ghost use Rattle.spec_rules.specs.TreeReader.{length_true, starts_rise};
ghost use Rattle.spec_accepted.specs.TreeFacts.{TreeLaid};
ghost use Rattle.format_tree.specs.Reading.{map_of};

use base_numbers::tree::{BINDING_SIZE, CASE_SIZE, NODE_SIZE, PATH_SIZE, STEP_SIZE, TREE_TRAILER};
use base_numbers::{BYTE_SIZE, WORD_SIZE, tree_starts};
use base_words::word_at;
use format_parts::sections::{Section, section_of, start, whole_records};

#[derive(Clone, Copy)]
pub struct TreeMap {
    pub nodes: Section,
    pub cases: Section,
    pub bindings: Section,
    pub paths: Section,
    pub steps: Section,
    pub pool: Section,
}

// "the length true"
pub fn length_true(tree: &[u8]) -> bool
    ensures { result ≡ length_true tree.now }
{
    let n = tree.len();
    TREE_TRAILER <= n && word_at(tree, n - WORD_SIZE) as usize == n
}

// "starts rising from 0, whole records"
pub fn starts_rise(tree: &[u8]) -> bool
    requires { tree_trailer ≤ length tree.now }
    ensures { result ≡ starts_rise tree.now }
{
    let nodes = start(tree, TREE_TRAILER, tree_starts::NODES);
    let cases = start(tree, TREE_TRAILER, tree_starts::CASES);
    let bindings = start(tree, TREE_TRAILER, tree_starts::BINDINGS);
    let paths = start(tree, TREE_TRAILER, tree_starts::PATHS);
    let steps = start(tree, TREE_TRAILER, tree_starts::STEPS);
    let pool = start(tree, TREE_TRAILER, tree_starts::POOL);
    nodes == 0
        && whole_records(NODE_SIZE, nodes, cases)
        && whole_records(CASE_SIZE, cases, bindings)
        && whole_records(BINDING_SIZE, bindings, paths)
        && whole_records(PATH_SIZE, paths, steps)
        && whole_records(STEP_SIZE, steps, pool)
        && whole_records(BYTE_SIZE, pool, tree.len() - TREE_TRAILER)
}

// The sections of a file whose starts rise.
pub fn sections(tree: &[u8]) -> TreeMap
    requires { TreeLaid tree.now }
    ensures { result ≡ map_of tree.now }
{
    let nodes_at = start(tree, TREE_TRAILER, tree_starts::NODES);
    let cases_at = start(tree, TREE_TRAILER, tree_starts::CASES);
    let bindings_at = start(tree, TREE_TRAILER, tree_starts::BINDINGS);
    let paths_at = start(tree, TREE_TRAILER, tree_starts::PATHS);
    let steps_at = start(tree, TREE_TRAILER, tree_starts::STEPS);
    let pool_at = start(tree, TREE_TRAILER, tree_starts::POOL);
    TreeMap {
        nodes: section_of(nodes_at, cases_at, NODE_SIZE),
        cases: section_of(cases_at, bindings_at, CASE_SIZE),
        bindings: section_of(bindings_at, paths_at, BINDING_SIZE),
        paths: section_of(paths_at, steps_at, PATH_SIZE),
        steps: section_of(steps_at, pool_at, STEP_SIZE),
        pool: section_of(pool_at, tree.len() - TREE_TRAILER, BYTE_SIZE),
    }
}
