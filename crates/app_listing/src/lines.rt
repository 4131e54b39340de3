// The lines of a listing: the first one, and a line for each node; and the line of a refused sheet.
// Each is the rules' text of its name, at the position where it is asked for.
ghost use Rattle.std.specs.Prelude.{[], ◌∷◌, ◌++◌, ◌+◌, ◌<◌, ◌≤◌};
ghost use Rattle.spec_rules.specs.Listing.{decimal, node_lines};
ghost use Rattle.spec_rules.specs.Listing.{refused_line, listing as listing_text};
ghost use Rattle.format_tree.specs.Reading.{Ruled};
ghost use Rattle.app_listing.specs.Writing.{Writes};
ghost use Rattle.app_listing.specs.Records.{switch_read, node_read, NodeInside, node_line};

use crate::parts::{put_bindings, put_cases, put_default, put_path};
use crate::texts::{put, put_decimal, put_numbered, put_text};
use format_tree::layout::TreeMap;
use format_tree::reading::{Node, node_at};

// What stands behind `switch` or `listswitch`.
fn put_switch(
    out: &mut [u8],
    at: usize,
    tree: &[u8],
    map: TreeMap,
    path: u16,
    first: u16,
    cases: usize,
    default: u16,
) -> usize
    requires { Ruled tree.now map × (path < map.paths.count) × (first + cases ≤ map.cases.count) }
    ensures { Writes out.old out.new at result (switch_read tree.now path first cases default) }
{
    let space = put(out, at, b' ');
    let path_end = put_path(out, space, tree, map, path as usize);
    let cases_end = put_cases(out, path_end, tree, map, first as usize, cases);
    put_default(out, cases_end, default)
}

fn put_leaf(
    out: &mut [u8],
    at: usize,
    tree: &[u8],
    map: TreeMap,
    clause: u16,
    first: u16,
    count: u16,
) -> usize
    requires { Ruled tree.now map × NodeInside map (Node.Leaf clause first count) }
    ensures { Writes out.old out.new at result (node_read tree.now (Node.Leaf clause first count)) }
{
    let end = put_numbered(out, at, b"leaf ", clause);
    put_bindings(out, end, tree, map, first as usize, count as usize)
}

fn put_hoist(
    out: &mut [u8],
    at: usize,
    tree: &[u8],
    map: TreeMap,
    clause: u16,
    first: u16,
    count: u16,
    child: u16,
) -> usize
    requires { Ruled tree.now map × NodeInside map (Node.Hoist clause first count child) }
    ensures { Writes out.old out.new at result (node_read tree.now (Node.Hoist clause first count child)) }
{
    let clause_end = put_numbered(out, at, b"hoist ", clause);
    let child_end = put_numbered(out, clause_end, b" then ", child);
    put_bindings(out, child_end, tree, map, first as usize, count as usize)
}

fn put_node(out: &mut [u8], at: usize, tree: &[u8], map: TreeMap, node: Node) -> usize
    requires { Ruled tree.now map × NodeInside map node }
    ensures { Writes out.old out.new at result (node_read tree.now node) }
{
    match node {
        Node::Switch {
            path,
            first,
            cases,
            default,
            test: _,
        } => {
            let end = put_text(out, at, b"switch");
            put_switch(out, end, tree, map, path, first, cases as usize, default)
        }
        Node::ListSwitch {
            path,
            first,
            cases,
            tails,
            default,
        } => {
            let end = put_text(out, at, b"listswitch");
            let all = cases as usize + tails as usize;
            put_switch(out, end, tree, map, path, first, all, default)
        }
        Node::Leaf {
            clause,
            first,
            count,
        } => put_leaf(out, at, tree, map, clause, first, count),
        Node::Hoist {
            clause,
            first,
            count,
            child,
        } => put_hoist(out, at, tree, map, clause, first, count, child),
    }
}

fn put_line(out: &mut [u8], at: usize, tree: &[u8], map: TreeMap, k: usize) -> usize
    requires { Ruled tree.now map × (k < map.nodes.count) }
    ensures { Writes out.old out.new at result (node_line tree.now k) }
{
    let node = node_at(tree, map, k);
    let number = put_decimal(out, at, k as u16);
    let space = put(out, number, b' ');
    let end = put_node(out, space, tree, map, node);
    put(out, end, b'\n')
}

// The lines of all nodes. It stops where the buffer is full, so that no more work is done than the buffer has room for.
fn put_lines(out: &mut [u8], at: usize, tree: &[u8], map: TreeMap) -> usize
    requires { Ruled tree.now map }
    ensures { Writes out.old out.new at result (node_lines tree.now 0 map.nodes.count) }
{
    let mut end = at;
    for k in 0..map.nodes.count {
        end = put_line(out, end, tree, map, k);
        if out.len() < end {
            return end;
        }
    }
    end
}

// A line of a word and two numbers.
fn put_two_numbers(out: &mut [u8], word: &[u8], a: u16, b: u16) -> usize
    ensures { Writes out.old out.new 0 result (word.now ++ (decimal a ++ (32 ∷ (decimal b ++ 10 ∷ [])))) }
{
    let first = put_numbered(out, 0, word, a);
    let second = put_numbered(out, first, b" ", b);
    put(out, second, b'\n')
}

pub(crate) fn put_listing(out: &mut [u8], tree: &[u8], map: TreeMap) -> usize
    requires { Ruled tree.now map }
    ensures { Writes out.old out.new 0 result (listing_text tree.now) }
{
    let nodes = map.nodes.count as u16;
    let bindings = map.bindings.count as u16;
    let end = put_two_numbers(out, b"tree ", nodes, bindings);
    put_lines(out, end, tree, map)
}

pub fn put_refused(out: &mut [u8], number: u16, place: u16) -> usize
    ensures { Writes out.old out.new 0 result (refused_line number place) }
{
    put_two_numbers(out, b"refused ", number, place)
}
