// Refusal 8, what is counted: each entry is in one pattern's list, and each pattern is one clause's root or one entry.
// Things are met and counted in a buffer of 192 bytes that is lent on, so that no section is searched once for each pattern and
// nothing is copied.
ghost use Rattle.std.specs.Prelude.{◌≡◌, true, ◌+◌, ◌<◌, ◌≤◌, length, get_or};
ghost use Rattle.spec_rules.specs.Searching.{every};
ghost use Rattle.spec_rules.specs.SheetFile.{patterns, children};
ghost use Rattle.spec_rules.specs.SheetRefusals.{stands_once};
ghost use Rattle.spec_accepted.specs.SheetFacts.{Laid, Counted};
ghost use Rattle.format_sheet.specs.Sections.{map_of};
ghost use Rattle.format_sheet.specs.Shape.{listed_once, ChildrenKnown, RootsKnown, RunsInside};
ghost use Rattle.format_sheet.specs.Meeting.{none_met, met_once, Meets, NoneMet, RootsMet, AllMet};

use crate::SheetMap;
use crate::records::{child_at, children_of, root_at};
use base_numbers::sheet::{CHILDREN_MOST, PATTERNS_MOST};

// None of `count` things from `first` on was met.
fn none_met(times: &[u8], first: usize, count: usize) -> bool
    requires { first + count ≤ length times.now }
    ensures { result ≡ none_met times.now first count }
{
    (first..first + count).all(|i| times[i] == 0)
}

// One thing met once more.
fn meet(times: &mut [u8], i: usize)
    requires { (i < length times.old) × (get_or times.old i 0 < 255) }
    ensures { Meets i 1 times.old times.new }
{
    times[i] += 1;
}

// `count` things from `first` on, none met before, met once.
fn meet_all(times: &mut [u8], first: usize, count: usize)
    requires { (first + count ≤ length times.old) × (none_met times.old first count ≡ true) }
    ensures { Meets first count times.old times.new }
{
    for k in 0..count {
        meet(times, first + k);
    }
}

// Each of the first n things was met once.
fn all_met_once(times: &[u8], n: usize) -> bool
    requires { n ≤ length times.now }
    ensures { result ≡ met_once times.now n }
{
    (0..n).all(|i| times[i] == 1)
}

// Each entry is in one pattern's list. A list that meets an entry again ends the search, so that no entry is met a third time.
pub(crate) fn entries_listed_once(sheet: &[u8], map: SheetMap) -> bool
    requires { Laid sheet.now × (map ≡ map_of sheet.now) × Counted sheet.now × RunsInside sheet.now }
    ensures { result ≡ every (listed_once sheet.now) 0 (children sheet.now) }
{
    let mut times = [0u8; CHILDREN_MOST];
    for p in 0..map.patterns.count {
        let run = children_of(sheet, map, p);
        if !none_met(&times, run.first, run.count) {
            return false;
        }
        meet_all(&mut times, run.first, run.count);
    }
    all_met_once(&times, map.children.count)
}

// Each root met.
fn meet_roots(sheet: &[u8], map: SheetMap, times: &mut [u8])
    requires { Laid sheet.now × (map ≡ map_of sheet.now) × Counted sheet.now × RootsKnown sheet.now × NoneMet times.old }
    ensures { RootsMet sheet.now times.new }
{
    for c in 0..map.clauses.count {
        meet(times, root_at(sheet, map, c));
    }
}

// Each entry of the child list met, after the roots.
fn meet_children(sheet: &[u8], map: SheetMap, times: &mut [u8])
    requires { Laid sheet.now × (map ≡ map_of sheet.now) × Counted sheet.now × ChildrenKnown sheet.now × RootsMet sheet.now times.old }
    ensures { AllMet sheet.now times.new }
{
    for j in 0..map.children.count {
        meet(times, child_at(sheet, map, j));
    }
}

// Each pattern is one clause's root or one entry.
pub(crate) fn patterns_stand_once(sheet: &[u8], map: SheetMap) -> bool
    requires { Laid sheet.now × (map ≡ map_of sheet.now) × Counted sheet.now × RootsKnown sheet.now × ChildrenKnown sheet.now }
    ensures { result ≡ every (stands_once sheet.now) 0 (patterns sheet.now) }
{
    let mut times = [0u8; PATTERNS_MOST];
    meet_roots(sheet, map, &mut times);
    meet_children(sheet, map, &mut times);
    all_met_once(&times, map.patterns.count)
}
