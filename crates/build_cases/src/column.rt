// The tests of a column by the numbers of their patterns, read once from the table, and the longest lengths of its lists.
// Rests on what a row has in a column and on the sheet's records.
ghost use Rattle.std.specs.Prelude.{◌≡◌, ◌++◌, ◌<◌, length, take};
ghost use Rattle.spec_rules.specs.Limits.{clauses_most};
ghost use Rattle.spec_rules.specs.SplittingLaws.{All};
ghost use Rattle.build_matrix.specs.HeldRows.{held_tests};
ghost use Rattle.build_matrix.specs.Lists.{as_rows, WholeRows, HoldsRows};
ghost use Rattle.build_matrix.specs.Reading.{held_in, InTable};
ghost use Rattle.build_cases.specs.Rows.{held_test, TestSmall, longest_of};
ghost use Rattle.build_cases.specs.Promises.{TestsAsked};

use crate::tests::{Longest, longer_of};
use base_numbers::sheet::{CLAUSES_MOST, PATTERNS_MOST};
use build_matrix::rows::{put_row, test_at};
use format_sheet::SheetMap;
use format_sheet::records::pattern_at;

// One test more, by its pattern's number, if the row has one; None is a wildcard.
fn keep_test(list: &mut [u8; CLAUSES_MOST], count: usize, held: Option<usize>) -> usize
    requires { WholeRows (as_rows list.old count) × (count < clauses_most) × TestSmall held }
    ensures { HoldsRows (as_rows list.new result) (take count list.old ++ held_test held) }
{
    match held {
        Some(p) => put_row(list, count, p as u8),
        None => count,
    }
}

// The tests of the first n of these rows in the column of a class, top down, in the list; how many there are.
pub(crate) fn column_tests<'a>(
    table: &[u8],
    rows: &'a [u8; CLAUSES_MOST],
    n: usize,
    opened: &'a [u8; PATTERNS_MOST],
    class: usize,
    list: &mut [u8; CLAUSES_MOST],
) -> usize
    requires { WholeRows (as_rows rows.now n) × All (InTable table.now class) (take n rows.now) × (length list.old ≡ clauses_most) }
    ensures { HoldsRows (as_rows list.new result) (held_tests (held_in table.now opened.now class) (take n rows.now)) }
{
    let mut count: usize = 0;
    for i in 0..n {
        count = keep_test(
            list,
            count,
            test_at(table, opened, usize::from(rows[i]), class),
        );
    }
    count
}

// The longest lengths of the lists among these tests.
pub(crate) fn longest_of(sheet: &[u8], map: SheetMap, tests: &[u8]) -> Longest
    requires { TestsAsked sheet.now map tests.now }
    ensures { result ≡ longest_of sheet.now tests.now }
{
    let mut longest = Longest {
        tailless: 0,
        tails: 0,
    };
    for i in (0..tests.len()).rev() {
        longest = longer_of(pattern_at(sheet, map, usize::from(tests[i])), longest);
    }
    longest
}
