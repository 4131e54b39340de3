// Where a node leads: "Switch: the first case that holds. List switch: the first of the exact length, else the first of the largest
// tail number not above it. Else the default; with none, No leaf." A hoist is passed over; a wrong kind is stuck before any case.
ghost use Rattle.std.specs.Option.{ForSome};
ghost use Rattle.std.specs.Prelude.{◌≡◌, List, ◌++◌, ℕ, ◌+◌, ◌<◌, ◌≤◌};
ghost use Rattle.spec_rules.specs.Kinds.{bytes_case, list_case, list_with_tail_case};
ghost use Rattle.spec_rules.specs.TreeReader.{case_kind, case_children, default_child};
ghost use Rattle.format_tree.specs.Reading.{Mapped, test_of};
ghost use Rattle.walk.specs.Positions.{ReadyToWalk};
ghost use Rattle.walk.specs.Choices.{AllKind};
ghost use Rattle.walk.specs.Turns.{steps_on, Turns, TurnsBy, default_walk, switch_walk, list_walk, tails_walk, length_walk, Steps, Arrives};

use crate::choose::{asked_by, child_of, largest_tail, numbered_case, text_case};
use crate::follow::{Found, StuckAt, follow, path_length};
use base_numbers::record_kinds;
use format_panel::PanelMap;
use format_panel::records::record_at;
use format_records::reading::Test;
use format_tree::layout::TreeMap;
use format_tree::reading::{Node, node_at};

// A leaf that is reached. Its numbers are wider than they need be: as u16 they are stored one by one and read back as one word, which a
// processor waits for.
#[derive(Clone, Copy)]
pub struct ReachedLeaf {
    pub clause: usize,
    pub first: usize,
    pub count: usize,
}

// Where the walk ends, at a leaf or without one or stuck, and at which node.
#[derive(Drop)]
pub struct Ended {
    pub node: usize,
    pub end: Result<Option<ReachedLeaf>, StuckAt>,
}

// Where a node leads that is not stuck: to another node, or to the walk's end. Its ways have names that std's ControlFlow would not give.
#[derive(Drop)]
pub enum Next {
    Node(usize),
    End(Option<ReachedLeaf>),
}

fn default_of(default: u16) -> Next
    ensures { (t v : List ℕ) (s : ℕ) → Turns t v s (default_child default) (default_walk v default) (Ok result) }
{
    if default == 0 {
        return Next::End(None);
    }
    Next::Node(default as usize - 1)
}

// The child of the case that was chosen, else the default.
fn chosen_or(tree: &[u8], map: TreeMap, chosen: Option<usize>, default: u16) -> Next
    requires { Mapped tree.now map × ForSome chosen (λ j. j < map.cases.count) }
    ensures { TurnsBy tree.now chosen default (Ok result) }
{
    match chosen {
        Some(place) => Next::Node(child_of(tree, map, place)),
        None => default_of(default),
    }
}

// The cases are all of the first one's kind, so that they are searched by a constructor's number, or by a text.
fn from_switch(
    tree: &[u8],
    map: TreeMap,
    panel: &[u8],
    places: PanelMap,
    path: u16,
    first: u16,
    cases: u16,
    default: u16,
    test: Test,
) -> Result<Next, StuckAt>
    requires { ReadyToWalk tree.now map panel.now places × (path < map.paths.count) × (1 ≤ cases) × (first + cases ≤ map.cases.count) × (case_kind tree.now first ≤ bytes_case) × AllKind tree.now (case_kind tree.now first) first cases × (test ≡ test_of tree.now first) }
    ensures { Turns tree.now panel.now (steps_on tree.now panel.now path) (case_children tree.now first cases ++ default_child default) (switch_walk tree.now panel.now path first cases default) result }
{
    let asked = asked_by(test);
    let found = follow(
        tree,
        map.paths.start,
        map.steps.start,
        panel,
        places,
        path as usize,
    );
    let Found::At(p) = found else {
        return Err(found.stuck());
    };
    let x = record_at(panel, p.record);
    if x.kind != asked {
        return Err(StuckAt(path_length(tree, map, path as usize)));
    }
    if asked == record_kinds::CONSTRUCTOR {
        let chosen = numbered_case(tree, map, first as usize, cases as usize, x.a);
        return Ok(chosen_or(tree, map, chosen, default));
    }
    let start = places.pool.start + x.first;
    let chosen = text_case(
        tree,
        map,
        panel,
        first as usize,
        cases as usize,
        start,
        x.count,
    );
    Ok(chosen_or(tree, map, chosen, default))
}

// Past the cases of the exact length.
fn from_tails(
    tree: &[u8],
    map: TreeMap,
    length: usize,
    first: usize,
    tails: usize,
    default: u16,
) -> Next
    requires { Mapped tree.now map × (first + tails ≤ map.cases.count) × AllKind tree.now list_with_tail_case first tails }
    ensures { (v : List ℕ) (s : ℕ) → Turns tree.now v s (case_children tree.now first tails ++ default_child default) (tails_walk tree.now v length first tails default) (Ok result) }
{
    let k = largest_tail(tree, map, first, tails, length);
    if k == 0 {
        return default_of(default);
    }
    let chosen = numbered_case(tree, map, first, tails, k - 1);
    chosen_or(tree, map, chosen, default)
}

fn from_length(
    tree: &[u8],
    map: TreeMap,
    length: usize,
    first: usize,
    cases: usize,
    tails: usize,
    default: u16,
) -> Next
    requires { Mapped tree.now map × (first + (cases + tails) ≤ map.cases.count) × AllKind tree.now list_case first cases × AllKind tree.now list_with_tail_case (first + cases) tails }
    ensures { (v : List ℕ) (s : ℕ) → Turns tree.now v s (case_children tree.now first (cases + tails) ++ default_child default) (length_walk tree.now v length first cases tails default) (Ok result) }
{
    match numbered_case(tree, map, first, cases, length) {
        Some(exact) => Next::Node(child_of(tree, map, exact)),
        None => from_tails(tree, map, length, first + cases, tails, default),
    }
}

fn from_list_switch(
    tree: &[u8],
    map: TreeMap,
    panel: &[u8],
    places: PanelMap,
    path: u16,
    first: u16,
    cases: u16,
    tails: u16,
    default: u16,
) -> Result<Next, StuckAt>
    requires { ReadyToWalk tree.now map panel.now places × (path < map.paths.count) × (first + (cases + tails) ≤ map.cases.count) × AllKind tree.now list_case first cases × AllKind tree.now list_with_tail_case (first + cases) tails }
    ensures { Turns tree.now panel.now (steps_on tree.now panel.now path) (case_children tree.now first (cases + tails) ++ default_child default) (list_walk tree.now panel.now path first cases tails default) result }
{
    let found = follow(
        tree,
        map.paths.start,
        map.steps.start,
        panel,
        places,
        path as usize,
    );
    let Found::At(p) = found else {
        return Err(found.stuck());
    };
    let x = record_at(panel, p.record);
    if x.kind != record_kinds::LIST {
        return Err(StuckAt(path_length(tree, map, path as usize)));
    }
    Ok(from_length(
        tree,
        map,
        x.count - p.dropped,
        first as usize,
        cases as usize,
        tails as usize,
        default,
    ))
}

fn from_node(
    tree: &[u8],
    map: TreeMap,
    panel: &[u8],
    places: PanelMap,
    k: usize,
) -> Result<Next, StuckAt>
    requires { ReadyToWalk tree.now map panel.now places × (k < map.nodes.count) }
    ensures { Steps tree.now panel.now k result }
{
    match node_at(tree, map, k) {
        Node::Switch {
            path,
            first,
            cases,
            default,
            test,
        } => from_switch(tree, map, panel, places, path, first, cases, default, test),
        Node::ListSwitch {
            path,
            first,
            cases,
            tails,
            default,
        } => from_list_switch(tree, map, panel, places, path, first, cases, tails, default),
        Node::Leaf {
            clause,
            first,
            count,
        } => Ok(Next::End(Some(ReachedLeaf {
            clause: clause as usize,
            first: first as usize,
            count: count as usize,
        }))),
        Node::Hoist {
            clause: _,
            first: _,
            count: _,
            child,
        } => Ok(Next::Node(child as usize)),
    }
}

// Where node 0 leads to in the end. A child's number is larger than its node's, so that the numbers end.
pub fn reach(tree: &[u8], map: TreeMap, panel: &[u8], places: PanelMap) -> Ended
    requires { ReadyToWalk tree.now map panel.now places }
    ensures { Arrives tree.now panel.now result.node result.end }
{
    let mut node: usize = 0;
    let end = loop {
        match from_node(tree, map, panel, places, node) {
            Ok(Next::Node(child)) => node = child,
            Ok(Next::End(leaf)) => break Ok(leaf),
            Err(stuck) => break Err(stuck),
        }
    };
    Ended { node, end }
}
