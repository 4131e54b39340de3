// Rule 3 on the rows of a matrix: what each has in a column, how many stand before a column's first wildcard, and the column to test.
// The rows with a wildcard are the default's.
ghost use Rattle.std.specs.Prelude.{◌≡◌, [], ◌∷◌, ◌++◌, ◌<◌, None, length, take};
ghost use Rattle.spec_rules.specs.Limits.{clauses_most};
ghost use Rattle.spec_rules.specs.SplittingLaws.{All};
ghost use Rattle.build_matrix.specs.HeldRows.{count_of, best_of, wild_of};
ghost use Rattle.build_matrix.specs.Lists.{as_classes, as_rows, Whole, WholeRows, HoldsRows};
ghost use Rattle.build_matrix.specs.Reading.{held_in, InTable, bettered, kept};

use base_numbers::sheet::{CLAUSES_MOST, PATTERNS_MOST};
use build_table::{CELL, OWNER, at};

// What clause c's row has in the column of this class: its test there, by the pattern's number, if it is not opened and the test that it
// is inside of is; None for a wildcard.
pub fn test_at(table: &[u8], opened: &[u8; PATTERNS_MOST], c: usize, class: usize) -> Option<usize>
    requires { InTable table.now class c }
    ensures { result ≡ held_in table.now opened.now class c }
{
    let cell = at(table, CELL + PATTERNS_MOST * c + class);
    if cell == 0 {
        return None;
    }
    let p = cell - 1;
    if opened[p] != 0 {
        return None;
    }
    let owner = at(table, OWNER + p);
    (owner == 0 || opened[owner - 1] != 0).then_some(p)
}

// The first n of these rows before the column's first wildcard.
fn occurrence(
    table: &[u8],
    rows: &[u8; CLAUSES_MOST],
    n: usize,
    opened: &[u8; PATTERNS_MOST],
    class: usize,
) -> usize
    requires { WholeRows (as_rows rows.now n) × All (InTable table.now class) (take n rows.now) }
    ensures { result ≡ count_of (held_in table.now opened.now class) (take n rows.now) }
{
    rows[..n]
        .iter()
        .position(|c| test_at(table, opened, usize::from(*c), class).is_none())
        .unwrap_or(n)
}

// The column with the most so far, by its class; None before the first with any.
#[derive(Drop)]
struct Best {
    choice: Option<usize>,
    amount: usize,
}

// Of equal ones the leftmost stays.
fn better_of(best: Best, class: usize, amount: usize) -> Best
    ensures { result ≡ bettered best class amount }
{
    if best.amount < amount {
        return Best {
            choice: Some(class),
            amount,
        };
    }
    best
}

// The column to test, by its class: of the first `width` columns the one with the most of the first `height` rows before its first
// wildcard; None where the first row has no test, so that its leaf comes.
pub fn highest_occurrence<'a>(
    table: &[u8],
    rows: &'a [u8; CLAUSES_MOST],
    height: usize,
    columns: &'a [u8; PATTERNS_MOST],
    width: usize,
    opened: &'a [u8; PATTERNS_MOST],
) -> Option<usize>
    requires { WholeRows (as_rows rows.now height) × Whole (as_classes columns.now width) × All (λ c. All (InTable table.now c) (take height rows.now)) (take width columns.now) }
    ensures { result ≡ best_of (λ c. count_of (held_in table.now opened.now c) (take height rows.now)) None 0 (take width columns.now) }
{
    let mut best = Best {
        choice: None,
        amount: 0,
    };
    for column in &columns[..width] {
        let class = usize::from(*column);
        best = better_of(best, class, occurrence(table, rows, height, opened, class));
    }
    best.choice
}

// One more number.
pub fn put_row(list: &mut [u8; CLAUSES_MOST], count: usize, number: u8) -> usize
    requires { WholeRows (as_rows list.old count) × (count < clauses_most) }
    ensures { HoldsRows (as_rows list.new result) (take count list.old ++ number ∷ []) }
{
    list[count] = number;
    count + 1
}

// Clause c's number behind the others, if its row has a wildcard in the column, which is None.
fn keep_wild(list: &mut [u8; CLAUSES_MOST], count: usize, c: u8, held: Option<usize>) -> usize
    requires { WholeRows (as_rows list.old count) × (count < clauses_most) }
    ensures { HoldsRows (as_rows list.new result) (take count list.old ++ kept held c) }
{
    match held {
        Some(_) => count,
        None => put_row(list, count, c),
    }
}

// The first n of these rows, those with a wildcard in the column, in the list; how many there are.
pub(crate) fn wild_rows<'a>(
    table: &[u8],
    rows: &'a [u8; CLAUSES_MOST],
    n: usize,
    opened: &'a [u8; PATTERNS_MOST],
    class: usize,
    list: &mut [u8; CLAUSES_MOST],
) -> usize
    requires { WholeRows (as_rows rows.now n) × All (InTable table.now class) (take n rows.now) × (length list.old ≡ clauses_most) }
    ensures { HoldsRows (as_rows list.new result) (wild_of (held_in table.now opened.now class) (take n rows.now)) }
{
    let mut count: usize = 0;
    for c in &rows[..n] {
        count = keep_wild(
            list,
            count,
            *c,
            test_at(table, opened, usize::from(*c), class),
        );
    }
    count
}
