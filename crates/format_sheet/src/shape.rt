// Refusal 8: every pattern, child and root keeps 01's rules. All its failures have place 0, so the order of the tests is free:
// each comes after those that make it safe and linear.
ghost use Rattle.std.specs.Prelude.{◌≡◌, ◌+◌, ◌-◌, ◌<◌, ◌≤◌, leb};
ghost use Rattle.spec_rules.specs.Kinds.{variable_pattern};
ghost use Rattle.spec_rules.specs.Searching.{every};
ghost use Rattle.spec_rules.specs.SheetFile.{patterns, children, clauses, patterns_at, children_at, pattern_kind, child};
ghost use Rattle.spec_rules.specs.Patterns.{pattern_kind_of};
ghost use Rattle.spec_rules.specs.SheetRefusals.{is_above, root_keeps_rules, within as Within, depth_fits, shape_fits};
ghost use Rattle.spec_accepted.specs.SheetFacts.{Laid, Counted};
ghost use Rattle.format_sheet.specs.Sections.{map_of};
ghost use Rattle.format_sheet.specs.Shape.{plain_run, own_fields, record_fits, child_known, all_above, ChildrenKnown, RootsKnown, RunsInside};

use crate::SheetMap;
use crate::records::{
    PatternRecord, child_at, child_in, children_in, children_of, no_run, pattern_at, root_at,
};
use crate::standing::{entries_listed_once, patterns_stand_once};
use base_numbers::pattern_kinds;
use base_numbers::sheet::{ASSIGN_CHILDREN, DEPTH_MOST, PAIR_CHILDREN, TAILED_CHILDREN_LEAST};
use format_parts::sections::run_in;

// An unused a, and a run in a section of n records.
fn plain_run(a: usize, first: usize, count: usize, n: usize) -> bool
    ensures { result ≡ plain_run a first count n }
{
    a == 0 && run_in(first, count, n)
}

// a, first and count of a pattern, by its kind.
#[tactic(auto, unfolding(crate::specs::Shape::own_fields, spec_rules::specs::Patterns::pattern_kind_of))]
fn fields_fit(r: PatternRecord, children: usize, pool: usize) -> bool
    ensures { result ≡ own_fields r children pool (pattern_kind_of r.kind) }
{
    let kind = r.kind;
    match kind {
        pattern_kinds::DISCARD => r.a == 0 && no_run(r.first, r.count),
        pattern_kinds::VARIABLE => no_run(r.first, r.count),
        pattern_kinds::ASSIGN => r.count == ASSIGN_CHILDREN && run_in(r.first, r.count, children),
        pattern_kinds::INTEGER | pattern_kinds::BYTE_STRING => {
            plain_run(r.a, r.first, r.count, pool)
        }
        pattern_kinds::LIST | pattern_kinds::TUPLE => { plain_run(r.a, r.first, r.count, children) }
        pattern_kinds::LIST_WITH_TAIL => {
            TAILED_CHILDREN_LEAST <= r.count && plain_run(r.a, r.first, r.count, children)
        }
        pattern_kinds::CONSTRUCTOR => run_in(r.first, r.count, children),
        pattern_kinds::PAIR => {
            r.count == PAIR_CHILDREN && plain_run(r.a, r.first, r.count, children)
        }
        _ => false,
    }
}

// The last of `count` children from `first` on is a variable or discard.
fn tail_fits(sheet: &[u8], map: SheetMap, first: usize, count: usize) -> bool
    requires laid { Laid sheet.now × (map ≡ map_of sheet.now) × ChildrenKnown sheet.now }
    requires le_count { (2 ≤ count) × (first + count ≤ children sheet.now) }
    ensures { result ≡ leb (pattern_kind sheet.now (child sheet.now (first + (count - 1)))) variable_pattern }
{
    let last = child_at(sheet, map, first + (count - 1));
    let tail = pattern_at(sheet, map, last);
    tail.kind <= pattern_kinds::VARIABLE
}

// The record of pattern p, without what its children are.
fn record_fits(sheet: &[u8], map: SheetMap, p: usize) -> bool
    requires { Laid sheet.now × (map ≡ map_of sheet.now) × ChildrenKnown sheet.now × (p < patterns sheet.now) }
    ensures { result ≡ record_fits sheet.now p }
{
    let r = pattern_at(sheet, map, p);
    r.zero == 0
        && fields_fit(r, map.children.count, map.pool.count)
        && (r.kind != pattern_kinds::LIST_WITH_TAIL || tail_fits(sheet, map, r.first, r.count))
}

fn records_fit(sheet: &[u8], map: SheetMap) -> bool
    requires { Laid sheet.now × (map ≡ map_of sheet.now) × ChildrenKnown sheet.now }
    ensures { result ≡ every (record_fits sheet.now) 0 (patterns sheet.now) }
{
    (0..map.patterns.count).all(|p| record_fits(sheet, map, p))
}

#[tactic(auto, unfolding(spec_rules::specs::SheetRefusals::root_keeps_rules))]
fn root_known(sheet: &[u8], map: SheetMap, c: usize) -> bool
    requires { Laid sheet.now × (map ≡ map_of sheet.now) × (c < clauses sheet.now) }
    ensures { result ≡ root_keeps_rules sheet.now c }
{
    root_at(sheet, map, c) < map.patterns.count
}

// Each root is a pattern.
fn roots_known(sheet: &[u8], map: SheetMap) -> bool
    requires { Laid sheet.now × (map ≡ map_of sheet.now) }
    ensures { result ≡ every (root_keeps_rules sheet.now) 0 (clauses sheet.now) }
{
    (0..map.clauses.count).all(|c| root_known(sheet, map, c))
}

#[tactic(auto, unfolding(crate::specs::Shape::child_known))]
fn child_known(sheet: &[u8], map: SheetMap, j: usize) -> bool
    requires { Laid sheet.now × (map ≡ map_of sheet.now) × (j < children sheet.now) }
    ensures { result ≡ child_known sheet.now j }
{
    child_at(sheet, map, j) < map.patterns.count
}

// Each entry of the child list is a pattern.
fn children_known(sheet: &[u8], map: SheetMap) -> bool
    requires { Laid sheet.now × (map ≡ map_of sheet.now) }
    ensures { result ≡ every (child_known sheet.now) 0 (children sheet.now) }
{
    (0..map.children.count).all(|j| child_known(sheet, map, j))
}

fn is_above(sheet: &[u8], map: SheetMap, p: usize, j: usize) -> bool
    requires { Laid sheet.now × (map ≡ map_of sheet.now) × ChildrenKnown sheet.now × (j < children sheet.now) }
    ensures { result ≡ is_above sheet.now p j }
{
    p < child_at(sheet, map, j)
}

// Each child of pattern p has a larger number.
fn children_above(sheet: &[u8], map: SheetMap, p: usize) -> bool
    requires { Laid sheet.now × (map ≡ map_of sheet.now) × ChildrenKnown sheet.now × RunsInside sheet.now × (p < patterns sheet.now) }
    ensures { result ≡ all_above sheet.now p }
{
    let run = children_of(sheet, map, p);
    (run.first..run.first + run.count).all(|j| is_above(sheet, map, p, j))
}

fn all_children_above(sheet: &[u8], map: SheetMap) -> bool
    requires { Laid sheet.now × (map ≡ map_of sheet.now) × ChildrenKnown sheet.now × RunsInside sheet.now }
    ensures { result ≡ every (all_above sheet.now) 0 (patterns sheet.now) }
{
    (0..map.patterns.count).all(|p| children_above(sheet, map, p))
}

// Pattern p and what is inside it reach no further than `deep` levels. Of the map it takes the starts of the patterns and of the child list.
fn within(sheet: &[u8], records: usize, list: usize, p: usize, deep: usize) -> bool
    requires { Laid sheet.now × (records ≡ patterns_at sheet.now) × (list ≡ children_at sheet.now) × ChildrenKnown sheet.now × RunsInside sheet.now × (p < patterns sheet.now) }
    ensures { result ≡ Within deep sheet.now p }
{
    if deep == 0 {
        return false;
    }
    let run = children_in(sheet, records, p);
    // A loop: of a closure that calls this function itself the check infers nothing.
    for k in 0..run.count {
        let child = child_in(sheet, list, run.first + k);
        if !within(sheet, records, list, child, deep - 1) {
            return false;
        }
    }
    true
}

#[tactic(auto, unfolding(spec_rules::specs::SheetRefusals::depth_fits))]
fn depth_fits(sheet: &[u8], map: SheetMap, c: usize) -> bool
    requires laid { Laid sheet.now × (map ≡ map_of sheet.now) × ChildrenKnown sheet.now × RunsInside sheet.now }
    requires roots_known { RootsKnown sheet.now × (c < clauses sheet.now) }
    ensures { result ≡ depth_fits sheet.now c }
{
    within(
        sheet,
        map.patterns.start,
        map.children.start,
        root_at(sheet, map, c),
        DEPTH_MOST,
    )
}

fn depths_fit(sheet: &[u8], map: SheetMap) -> bool
    requires laid { Laid sheet.now × (map ≡ map_of sheet.now) × ChildrenKnown sheet.now × RunsInside sheet.now }
    requires roots_known { RootsKnown sheet.now }
    ensures { result ≡ every (depth_fits sheet.now) 0 (clauses sheet.now) }
{
    (0..map.clauses.count).all(|c| depth_fits(sheet, map, c))
}

// 8.
#[tactic(auto, using(crate::specs::ShapeLaws::shape_in_order, crate::specs::ShapeLaws::roots_known, crate::specs::ShapeLaws::children_known, crate::specs::ShapeLaws::runs_inside))]
pub(crate) fn shape_fits(sheet: &[u8], map: SheetMap) -> bool
    requires { Laid sheet.now × (map ≡ map_of sheet.now) × Counted sheet.now }
    ensures { result ≡ shape_fits sheet.now }
{
    roots_known(sheet, map)
        && children_known(sheet, map)
        && records_fit(sheet, map)
        && entries_listed_once(sheet, map)
        && all_children_above(sheet, map)
        && patterns_stand_once(sheet, map)
        && depths_fit(sheet, map)
}
