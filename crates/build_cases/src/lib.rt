// Rule 4, the cases of a column in order of first meeting, each written as its record into the arena: first those without a tail, then
// those with one. A test is met by a search among the cases that its pass has met so far; a new one is written behind them.
//
// Cost: the column's tests are read once from the table, and their records once for the longest lengths and once in each pass. A row
// with a tail joins a case for each length from its own up to the longest (at most 192 in a pass), any other row one case; each is
// looked for among those met so far, texts byte by byte where their lengths are equal (at most 64 bytes). No more is written once
// 1,024 cases are there: each case has a node of its own, so that the tree then has too many nodes (refusal 12).
#![tactic(auto)]

mod column;
mod meet;
mod rows;
mod search;
mod tests;

ghost use Rattle.std.specs.Prelude.{◌<◌, ◌≤◌, length, take};
ghost use Rattle.spec_rules.specs.Limits.{patterns_most};
ghost use Rattle.spec_rules.specs.SheetFile.{clauses};
ghost use Rattle.spec_rules.specs.SplittingLaws.{All};
ghost use Rattle.build_matrix.specs.Lists.{as_rows, WholeRows};
ghost use Rattle.build_matrix.specs.Ready.{ReadyTable};
ghost use Rattle.build_arena.specs.Arena.{cases_most, arena_end};
ghost use Rattle.build_cases.specs.Made.{column_of, MeetsTo};
ghost use Rattle.build_cases.specs.Promises.{live_column, TestsAsked};

use base_numbers::sheet::{CLAUSES_MOST, PATTERNS_MOST};
use base_numbers::tree::CASES_MOST;
use column::{column_tests, longest_of};
use format_sheet::SheetMap;
use rows::{Pass, meet_rows};

// The cases without a tail end at `mid`, those with one at `end`; `list` says whether the column is one of lists.
#[derive(Drop)]
pub struct CasesMet {
    pub mid: usize,
    pub end: usize,
    pub list: bool,
}

// The cases of these tests, from case `first` on: those without a tail, then those with one.
fn meet_both(
    sheet: &[u8],
    map: SheetMap,
    tests: &[u8],
    work: &mut [u8],
    first: usize,
) -> Option<CasesMet>
    requires tests_asked { TestsAsked sheet.now map tests.now }
    requires arena_end_in_bounds { (arena_end ≤ length work.old) × (first ≤ cases_most) }
    ensures { MeetsTo sheet.now (column_of sheet.now tests.now) first work.old work.new result }
{
    let longest = longest_of(sheet, map, tests);
    let tailless = Pass {
        tail: false,
        longest,
    };
    let tailed = Pass {
        tail: true,
        longest,
    };
    let mid = meet_rows(sheet, map, tests, tailless, work, first);
    let end = meet_rows(sheet, map, tests, tailed, work, mid);
    if end == CASES_MOST {
        return None;
    }
    Some(CasesMet {
        mid,
        end,
        list: 0 < longest.tailless + longest.tails,
    })
}

// The cases of the first n of these rows in the column of a class, from case `first` on.
pub fn meet_cases<'a>(
    sheet: &[u8],
    map: SheetMap,
    table: &[u8],
    rows: &'a [u8; CLAUSES_MOST],
    n: usize,
    opened: &'a [u8; PATTERNS_MOST],
    class: usize,
    work: &mut [u8],
    first: usize,
) -> Option<CasesMet>
    requires ready_table { ReadyTable sheet.now map table.now × WholeRows (as_rows rows.now n) × All (λ c. c < clauses sheet.now) (take n rows.now) × (class < patterns_most) }
    requires arena_end_in_bounds { (arena_end ≤ length work.old) × (first ≤ cases_most) }
    ensures { MeetsTo sheet.now (live_column sheet.now opened.now class (take n rows.now)) first work.old work.new result }
{
    let mut tests = [0u8; CLAUSES_MOST];
    let found = column_tests(table, rows, n, opened, class, &mut tests);
    meet_both(sheet, map, &tests[..found], work, first)
}
