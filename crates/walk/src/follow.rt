// Following a path of a tree through a panel: each step asks a record of its kind that has the part, else the walk is stuck there.
// A position is a record and how many elements of its list are dropped.
ghost use Rattle.std.specs.Prelude.{◌≡◌, ◌+◌, ◌<◌, ◌≤◌, length};
ghost use Rattle.spec_rules.specs.PanelFile.{parts};
ghost use Rattle.spec_rules.specs.TreeReader.{paths, tree_paths_at, tree_steps_at, step_of_fields, path_at};
ghost use Rattle.spec_rules.specs.Walking.{take_step};
ghost use Rattle.spec_accepted.specs.PanelFacts.{PanelShaped};
ghost use Rattle.format_panel.specs.Opened.{Opened};
ghost use Rattle.format_tree.specs.Reading.{Mapped};
ghost use Rattle.walk.specs.Positions.{placed, taken_of, found_by, stuck_of, left_by, part_in, tail_in, Followable, Within};

use base_numbers::{record_kinds, step_kinds};
use format_panel::PanelMap;
use format_panel::records::{Record, part_at, record_at};
use format_records::reading::Step;
use format_tree::layout::TreeMap;
use format_tree::reading::{path_at, path_from, step_from};

#[derive(Drop)]
pub struct Position {
    pub record: usize,
    pub dropped: usize,
}

// The number of the step that could not be taken, which is how many were taken before it; or the path's length, where a test is.
#[derive(Clone, Copy)]
pub struct StuckAt(pub u16);

// Where a path leads, or the step at which it is stuck. The document names this form, "At(position) or Stuck", and that each caller takes it
// apart by let .. else.
#[derive(Drop)]
pub enum Found {
    At(Position),
    Stuck(StuckAt),
}

impl Found {
    // Of a path that is stuck, where.
    pub fn stuck(self) -> StuckAt
        ensures { result ≡ stuck_of self }
    {
        match self {
            Found::At(_) => StuckAt(0),
            Found::Stuck(at) => at,
        }
    }
}

// The kind of record that a step of this kind is taken from.
fn left_by(kind: u8) -> u8
    ensures { result ≡ left_by kind }
{
    if kind < step_kinds::LIST {
        kind + record_kinds::PAIR
    } else {
        record_kinds::LIST
    }
}

// Part i of a record.
fn part_in(panel: &[u8], places: PanelMap, x: Record, i: usize) -> Option<Position>
    requires { Opened panel.now places × (x.first + x.count ≤ parts panel.now) }
    ensures { result ≡ taken_of (part_in panel.now x i) }
{
    if x.count <= i {
        return None;
    }
    let record = part_at(panel, places, x.first + i);
    Some(Position { record, dropped: 0 })
}

// What is left of the list r after its first i elements.
fn tail_in(x: Record, r: usize, i: usize) -> Option<Position>
    ensures { result ≡ taken_of (tail_in x r i) }
{
    if x.count < i {
        return None;
    }
    Some(Position {
        record: r,
        dropped: i,
    })
}

// One step from a position. Its flag and type are not asked.
fn take_step(panel: &[u8], places: PanelMap, s: Step, p: Position) -> Option<Position>
    requires { Opened panel.now places × PanelShaped panel.now × Within panel.now (placed p) }
    ensures { result ≡ taken_of (take_step panel.now (step_of_fields s.kind s.flag s.index s.of) (placed p)) }
{
    let kind = s.kind;
    let i = s.index as usize;
    let r = p.record;
    let dropped = p.dropped;
    let x = record_at(panel, r);
    if x.kind != left_by(kind) {
        return None;
    }
    if kind < step_kinds::LIST {
        return part_in(panel, places, x, i);
    }
    if kind == step_kinds::LIST {
        return part_in(panel, places, x, dropped + i);
    }
    tail_in(x, r, dropped + i)
}

// Where path p of the tree leads from the panel's root. Of the tree's map it takes the two starts that it reads from:
// a call stores what it hands on, and there is one for each switch and each binding.
pub fn follow(
    tree: &[u8],
    paths_at: usize,
    steps_at: usize,
    panel: &[u8],
    places: PanelMap,
    p: usize,
) -> Found
    requires { Followable tree.now panel.now places × (paths_at ≡ tree_paths_at tree.now) × (steps_at ≡ tree_steps_at tree.now) × (p < paths tree.now) }
    ensures { result ≡ found_by panel.now (path_at tree.now p) }
{
    let path = path_from(tree, paths_at, p);
    let first = path.first as usize;
    let mut at = Position {
        record: 0,
        dropped: 0,
    };
    for k in 0..path.count {
        let step = step_from(tree, steps_at, first + k as usize);
        let Some(next) = take_step(panel, places, step, at) else {
            return Found::Stuck(StuckAt(k));
        };
        at = next;
    }
    Found::At(at)
}

// How many steps path p has: "a test on a wrong kind of part counts as the path's length".
pub fn path_length(tree: &[u8], map: TreeMap, p: usize) -> u16
    requires { Mapped tree.now map × (p < map.paths.count) }
    ensures { result ≡ length (path_at tree.now p) }
{
    path_at(tree, map, p).count
}
