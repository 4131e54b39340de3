// Rules 2 and 4: the matrix of the clauses, of a default and of a case of a column.
// The matrix of a default or of a case reads its parent's rows and columns where they are and is made in arrays that are lent: its rows
// are found going down, its columns put from the last row up, and the column is tested behind those tested so far, where these are.
ghost use Rattle.std.specs.Prelude.{◌≡◌, [], ◌<◌, ◌≤◌, length, take};
ghost use Rattle.spec_rules.specs.Limits.{clauses_most, patterns_most};
ghost use Rattle.spec_rules.specs.SplittingLaws.{All};
ghost use Rattle.spec_rules.specs.SheetFile.{clauses};
ghost use Rattle.format_sheet.specs.Check.{SheetAccepts};
ghost use Rattle.build_matrix.specs.RowStates.{up_from};
ghost use Rattle.build_matrix.specs.Matrices.{gather, root_tests, marked};
ghost use Rattle.build_matrix.specs.Numbered.{first_numbered};
ghost use Rattle.build_matrix.specs.Lists.{as_classes, as_rows, Holds, HoldsRows, WholeRows};
ghost use Rattle.build_matrix.specs.Ready.{ReadyTable, put_tests};
ghost use Rattle.build_matrix.specs.Meant.{InPool, HeldKnown};
ghost use Rattle.build_matrix.specs.InNumbers.{StandsFor, Splits, default_read};
ghost use Rattle.build_matrix.specs.Promises.{rows_before, rows_after, matrix_now, numbers_before, matrix_after, case_of_test, CaseAsked, JoinsRow, JoinsRows, columns_opened, OpensAsked};

use crate::columns::{empty, map_pattern_to_row, open, push, put_rest};
use crate::covering::covers;
use crate::rows::{put_row, test_at, wild_rows};
use crate::{Classes, Matrix, PerRow, Sizes};
use base_numbers::sheet::{CLAUSES_MOST, PATTERNS_MOST};
use format_records::reading::Test;
use format_sheet::SheetMap;
use format_sheet::records::root_at;

// A row for each of n clauses.
fn all_rows(n: usize) -> PerRow
    requires { n ≤ clauses_most }
    ensures { HoldsRows result (up_from 0 n) }
{
    let mut list: [u8; CLAUSES_MOST] = [0; CLAUSES_MOST];
    for c in 0..n {
        list[c] = c as u8;
    }
    PerRow { list, count: n }
}

// The columns of all clauses.
fn first_columns(sheet: &[u8], map: SheetMap, table: &[u8]) -> Classes
    requires { ReadyTable sheet.now map table.now }
    ensures { Holds result (put_tests sheet.now (gather (root_tests sheet.now) (up_from 0 (clauses sheet.now))) []) }
{
    let mut list = [0u8; PATTERNS_MOST];
    let mut count: usize = 0;
    for c in (0..map.clauses.count).rev() {
        count = map_pattern_to_row(sheet, map, table, &mut list, count, root_at(sheet, map, c));
    }
    Classes { list, count }
}

// The matrix of the clauses.
pub fn first_matrix(sheet: &[u8], map: SheetMap, table: &[u8]) -> Matrix
    requires { ReadyTable sheet.now map table.now }
    ensures { StandsFor result (first_numbered sheet.now) }
{
    let rows = all_rows(map.clauses.count);
    let columns = first_columns(sheet, map, table);
    Matrix {
        rows,
        columns,
        tested: empty(),
        opened: [0; PATTERNS_MOST],
    }
}

// The default of the column of a class: the rows with a wildcard there, the other columns, and this one tested; what is opened stays.
pub fn default_matrix<'a, 'b>(
    table: &[u8],
    rows: &'a [u8; CLAUSES_MOST],
    columns: &'a [u8; PATTERNS_MOST],
    tested: &'b mut [u8; PATTERNS_MOST],
    opened: &'a [u8; PATTERNS_MOST],
    sizes: Sizes,
    class: usize,
    new_rows: &'b mut [u8; CLAUSES_MOST],
    new_columns: &'b mut [u8; PATTERNS_MOST],
) -> Sizes
    requires splits { Splits table.now (matrix_now rows.now columns.now tested.old opened.now sizes) class }
    requires new_rows_len { (length new_rows.old ≡ clauses_most) × (length new_columns.old ≡ patterns_most) }
    ensures { StandsFor (matrix_after new_rows.new new_columns.new tested.new opened.now result) (default_read table.now class (numbers_before rows.now columns.now tested.old opened.now sizes)) }
{
    let count = wild_rows(table, rows, sizes.rows, opened, class, new_rows);
    let rest = put_rest(new_columns, 0, columns, sizes.columns, class);
    push(tested, sizes.tested, class);
    Sizes {
        rows: count,
        columns: rest,
        tested: sizes.tested + 1,
    }
}

// How many of each there are so far.
#[derive(Drop)]
struct Counts {
    rows: usize,
    opens: usize,
}

// The row of clause c, which has this in the column: a wildcard, which is None, joins, and a test that belongs to the case.
fn join_row(
    sheet: &[u8],
    map: SheetMap,
    rows: &mut [u8; CLAUSES_MOST],
    opens: &mut [u8; CLAUSES_MOST],
    counts: Counts,
    c: u8,
    held: Option<usize>,
    test: Test,
) -> Counts
    requires sheet_accepts { SheetAccepts sheet.now map × HeldKnown sheet.now held × InPool sheet.now test }
    requires whole_rows { WholeRows (as_rows rows.old counts.rows) × WholeRows (as_rows opens.old counts.opens) × (counts.rows < clauses_most) × (counts.opens < clauses_most) }
    ensures { JoinsRow sheet.now test held c (rows_before rows.old counts.rows) (rows_before opens.old counts.opens) (rows_after rows.new result.rows) (rows_after opens.new result.opens) }
{
    match held {
        Some(p) => {
            if !covers(sheet, map, p, test) {
                return counts;
            }
            Counts {
                rows: put_row(rows, counts.rows, c),
                opens: put_row(opens, counts.opens, p as u8),
            }
        }
        None => Counts {
            rows: put_row(rows, counts.rows, c),
            opens: counts.opens,
        },
    }
}

// Of the first n of these rows those of a case of the column of a class, and the tests that they open; how many of each.
fn join_rows<'a, 'b>(
    sheet: &[u8],
    map: SheetMap,
    table: &[u8],
    from: &'a [u8; CLAUSES_MOST],
    n: usize,
    opened: &'a [u8; PATTERNS_MOST],
    class: usize,
    test: Test,
    rows: &'b mut [u8; CLAUSES_MOST],
    opens: &'b mut [u8; CLAUSES_MOST],
) -> Counts
    requires ready_table { ReadyTable sheet.now map table.now × WholeRows (as_rows from.now n) × All (λ c. c < clauses sheet.now) (take n from.now) × (class < patterns_most) × InPool sheet.now test }
    requires rows_len { (length rows.old ≡ clauses_most) × (length opens.old ≡ clauses_most) }
    ensures { JoinsRows sheet.now test opened.now class (take n from.now) (rows_after rows.new result.rows) (rows_after opens.new result.opens) }
{
    let mut counts = Counts { rows: 0, opens: 0 };
    for c in &from[..n] {
        let held = test_at(table, opened, usize::from(*c), class);
        counts = join_row(sheet, map, rows, opens, counts, *c, held, test);
    }
    counts
}

// Each of the first n of these tests opened at this time.
fn mark(opened: &mut [u8; PATTERNS_MOST], opens: &[u8; CLAUSES_MOST], n: usize, time: usize)
    requires { (length opened.old ≡ patterns_most) × WholeRows (as_rows opens.now n) × All (λ p. p < patterns_most) (take n opens.now) × (time ≤ patterns_most) }
    ensures { opened.new ≡ marked time opened.old (take n opens.now) }
{
    for p in &opens[..n] {
        opened[usize::from(*p)] = time as u8;
    }
}

// The columns that the first n of these tests open to, the last test's first.
fn open_all(
    sheet: &[u8],
    map: SheetMap,
    table: &[u8],
    opens: &[u8; CLAUSES_MOST],
    n: usize,
    list: &mut [u8; PATTERNS_MOST],
) -> usize
    requires opens_asked { OpensAsked sheet.now map table.now opens.now n }
    requires list_len { length list.old ≡ patterns_most }
    ensures { Holds (as_classes list.new result) (columns_opened sheet.now (take n opens.now)) }
{
    let mut count: usize = 0;
    for i in (0..n).rev() {
        count = open(sheet, map, table, list, count, usize::from(opens[i]));
    }
    count
}

// A case of the column of a class: the rows with a wildcard there and those whose tests belong to it, what these open to before the
// other columns, and this one tested. The rows are asked before their tests are marked as opened.
pub fn case_matrix<'a, 'b>(
    sheet: &[u8],
    map: SheetMap,
    table: &[u8],
    rows: &'a [u8; CLAUSES_MOST],
    columns: &'a [u8; PATTERNS_MOST],
    tested: &'b mut [u8; PATTERNS_MOST],
    opened: &'b mut [u8; PATTERNS_MOST],
    sizes: Sizes,
    class: usize,
    test: Test,
    new_rows: &'b mut [u8; CLAUSES_MOST],
    new_columns: &'b mut [u8; PATTERNS_MOST],
) -> Sizes
    requires case_asked { CaseAsked sheet.now map table.now (matrix_now rows.now columns.now tested.old opened.old sizes) class test }
    requires new_rows_len { (length new_rows.old ≡ clauses_most) × (length new_columns.old ≡ patterns_most) }
    ensures { StandsFor (matrix_after new_rows.new new_columns.new tested.new opened.new result) (case_of_test sheet.now class test (numbers_before rows.now columns.now tested.old opened.old sizes)) }
{
    let mut opens = [0u8; CLAUSES_MOST];
    let n = sizes.rows;
    let counts = join_rows(
        sheet, map, table, rows, n, opened, class, test, new_rows, &mut opens,
    );
    let front = open_all(sheet, map, table, &opens, counts.opens, new_columns);
    let all = put_rest(new_columns, front, columns, sizes.columns, class);
    push(tested, sizes.tested, class);
    let time = sizes.tested + 1;
    mark(opened, &opens, counts.opens, time);
    Sizes {
        rows: counts.rows,
        columns: all,
        tested: time,
    }
}
