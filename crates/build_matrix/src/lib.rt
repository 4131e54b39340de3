// A matrix of rules 2 to 4: its rows by clause, its columns by class, the columns tested so far and when each test was opened.
// Counting and choosing a column are in rows, putting columns in order in columns, which tests belong to a case in covering, and the
// matrices of the clauses, of a default and of a case in splitting.
//
// Cost: the matrix of the clauses is a value of some 630 bytes, made once. That of a child of a switch is made in arrays that are lent:
// the parent's rows and columns are read where they are, its columns tested get one more, and a case marks what it opens, so that no
// call copies a list and nothing is allocated. What a row has in a column is at most four reads. Choosing asks in each column the rows
// down to the first wildcard; a default or a case asks each row in its own column once, and a text is compared with a case's text once,
// byte by byte. A column put among others is compared with those before its place, each pair of paths by at most 11 indices. Mapping a
// pattern goes at most one call deep for each pattern and each child, where 192 less the pattern number falls.
#![tactic(auto)]

use base_numbers::sheet::{CLAUSES_MOST, PATTERNS_MOST};

mod columns;
mod covering;
pub mod rows;
pub mod splitting;

ghost use Rattle.std.specs.Prelude.{◌≡◌};

// Numbers, at most one for each row.
#[derive(Drop)]
pub struct PerRow {
    pub list: [u8; CLAUSES_MOST],
    pub count: usize,
}

// Classes, at most one for each pattern.
#[derive(Drop)]
pub struct Classes {
    pub list: [u8; PATTERNS_MOST],
    pub count: usize,
}

// `opened` has of each pattern one more than the place in `tested` of the column where its test was opened, or 0.
#[derive(Drop)]
pub struct Matrix {
    pub rows: PerRow,
    pub columns: Classes,
    pub tested: Classes,
    pub opened: [u8; PATTERNS_MOST],
}

// How many rows and columns a matrix has, and how many columns were tested.
#[derive(Clone, Copy)]
pub struct Sizes {
    pub rows: usize,
    pub columns: usize,
    pub tested: usize,
}
