// The boundaries of document 01 for a sheet: each line names a case and gives the answer of the check.
// The file stdout has the answers as 01 gives them, by hand.
#![tactic(auto)]

mod make;

use make::{clauses, list_of, nested};
use std::io;
use test_make::{ONE_CLAUSE, Sizes, bytes, end, say_refused, word, words};

// ---- a case
fn check(rt: &impl Print, name: &str, sheet: &[u8]) -> io::Result<()> {
    match format_sheet::check(sheet) {
        Ok(map) => {
            println!(rt;
                "{name}: accepted {} {}",
                map.patterns.count, map.clauses.count
            )
        }
        Err(refusal) => say_refused(rt, name, refusal),
    }
}

// The first n bytes.
fn check_first(rt: &impl Print, name: &str, b: &[u8], n: usize) -> io::Result<()> {
    match b.get(..n) {
        Some(sheet) => check(rt, name, sheet),
        None => Ok(()),
    }
}

// ---- 2 to 5: sheets of zeros, which are types Int, constructors of no field, type entries of type 0, discards, and roots 0
fn sized(rt: &impl Print, name: &str, n: Sizes) -> io::Result<()> {
    let mut b = [0u8; 9000];
    let length = end(&mut b, n, 0);
    check_first(rt, name, &b, length)
}

fn lengths(rt: &impl Print) -> io::Result<()> {
    let b = [0u8; 17];
    check(rt, "17 bytes", &b)?;
    sized(rt, "18 bytes", Sizes::default())?;
    sized(rt, "one clause", ONE_CLAUSE)?;
    sized(
        rt,
        "8192 bytes",
        Sizes {
            pool: 8158,
            ..ONE_CLAUSE
        },
    )?;
    sized(
        rt,
        "8193 bytes",
        Sizes {
            pool: 8159,
            ..ONE_CLAUSE
        },
    )
}

fn counts(rt: &impl Print) -> io::Result<()> {
    sized(
        rt,
        "64 types",
        Sizes {
            types: 64,
            ..ONE_CLAUSE
        },
    )?;
    sized(
        rt,
        "65 types",
        Sizes {
            types: 65,
            ..ONE_CLAUSE
        },
    )?;
    sized(
        rt,
        "128 constructors",
        Sizes {
            constructors: 128,
            ..ONE_CLAUSE
        },
    )?;
    sized(
        rt,
        "129 constructors",
        Sizes {
            constructors: 129,
            ..ONE_CLAUSE
        },
    )?;
    entry_counts(rt)
}

fn entry_counts(rt: &impl Print) -> io::Result<()> {
    sized(
        rt,
        "256 type entries",
        Sizes {
            entries: 256,
            ..ONE_CLAUSE
        },
    )?;
    sized(
        rt,
        "257 type entries",
        Sizes {
            entries: 257,
            ..ONE_CLAUSE
        },
    )
}

fn listed(rt: &impl Print, name: &str, n: u16) -> io::Result<()> {
    let mut b = [0u8; 9000];
    let length = list_of(&mut b, n);
    check_first(rt, name, &b, length)
}

fn with_clauses(rt: &impl Print, name: &str, n: u16) -> io::Result<()> {
    let mut b = [0u8; 9000];
    let length = clauses(&mut b, n);
    check_first(rt, name, &b, length)
}

fn more_counts(rt: &impl Print) -> io::Result<()> {
    listed(rt, "192 patterns, 191 children", 191)?;
    listed(rt, "193 patterns, 192 children", 192)?;
    sized(
        rt,
        "192 children, all pattern 0",
        Sizes {
            children: 192,
            ..ONE_CLAUSE
        },
    )?;
    sized(
        rt,
        "193 children, all pattern 0",
        Sizes {
            children: 193,
            ..ONE_CLAUSE
        },
    )?;
    with_clauses(rt, "32 clauses", 32)?;
    with_clauses(rt, "33 clauses", 33)
}

// ---- 3, 4, 6, 8, 10, 11: a sheet with one of everything, and what a word of it changes.
// Types: 0 Int, 1 Bytes, 2 List of 0, 3 Pair of 0 and 1, 4 Tuple of 2 and 5, 5 Data of constructor 0, of no field, and constructor
// 1, with a field of type 3. The subject is 4.
fn types(b: &mut [u8]) {
    words(b, 6, &[1, 0, 0]);
    words(b, 12, &[2, 0, 1]);
    words(b, 18, &[3, 1, 2]);
    words(b, 24, &[4, 3, 2]);
    words(b, 30, &[5, 0, 2]);
}

fn parts_of_types(b: &mut [u8]) {
    words(b, 36, &[0, 0, 5, 1]);
    words(b, 44, &[0, 0, 1]);
    words(b, 50, &[2, 5, 3]);
}

// Clause 0: pattern 0, a tuple of 1 and 2; 1 a list with tail, of 3 and 4; 2 constructor 1 with 5; 3 the integer 1; 4 the variable
// 7; 5 a pair of 6 and 7; 6 assigns 8 to the discard pattern 8; 7 the byte string ab.
fn patterns_0_to_3(b: &mut [u8]) {
    words(b, 56, &[9, 0, 0, 2]);
    words(b, 64, &[6, 0, 2, 2]);
    words(b, 72, &[7, 1, 4, 1]);
    words(b, 80, &[3, 0, 0, 1]);
}

fn patterns_4_to_7(b: &mut [u8]) {
    words(b, 88, &[1, 7, 0, 0]);
    words(b, 96, &[8, 0, 5, 2]);
    words(b, 104, &[2, 8, 7, 1]);
    words(b, 112, &[4, 0, 1, 2]);
}

// Clause 1: pattern 9, a tuple of 10, the empty list, and 11, the variable 7. Clause 2: pattern 12, a discard.
fn patterns_9_to_11(b: &mut [u8]) {
    words(b, 128, &[9, 0, 8, 2]);
    words(b, 136, &[5, 0, 0, 0]);
    words(b, 144, &[1, 7, 0, 0]);
}

fn children_roots_and_pool(b: &mut [u8]) {
    words(b, 160, &[1, 2, 3, 4]);
    words(b, 168, &[5, 6, 7, 8]);
    words(b, 176, &[10, 11, 0, 9]);
    word(b, 184, 12);
    bytes(b, 186, b"1ab");
}

fn one_of_everything(b: &mut [u8]) -> usize {
    types(b);
    parts_of_types(b);
    patterns_0_to_3(b);
    patterns_4_to_7(b);
    patterns_9_to_11(b);
    children_roots_and_pool(b);
    end(
        b,
        Sizes {
            types: 6,
            constructors: 2,
            entries: 6,
            patterns: 13,
            children: 10,
            clauses: 3,
            pool: 3,
        },
        4,
    )
}

// The sheet with the word x at byte i.
fn with(rt: &impl Print, name: &str, i: usize, x: usize) -> io::Result<()> {
    let mut b = [0u8; 256];
    let length = one_of_everything(&mut b);
    word(&mut b, i, x);
    check_first(rt, name, &b, length)
}

// The same with two words changed.
fn with_two(rt: &impl Print, name: &str, i: usize, x: usize, j: usize, y: usize) -> io::Result<()> {
    let mut b = [0u8; 256];
    let length = one_of_everything(&mut b);
    word(&mut b, i, x);
    word(&mut b, j, y);
    check_first(rt, name, &b, length)
}

fn layouts(rt: &impl Print) -> io::Result<()> {
    with(rt, "one of everything", 0, 0)?;
    with(rt, "another length in the trailer", 205, 206)?;
    with(rt, "types that start at 6", 189, 6)?;
    with(rt, "a constructor that is cut", 193, 46)?;
    with(rt, "children that start before the patterns", 197, 54)?;
    with(rt, "a pool that starts past the trailer", 201, 190)?;
    with(rt, "no clause", 201, 180)
}

fn kinds_of_types(rt: &impl Print) -> io::Result<()> {
    with(rt, "a type of kind 6", 0, 6)?;
    with(rt, "Int with a first", 2, 1)?;
    with(rt, "Int with a count", 4, 1)?;
    with(rt, "Bytes with a count", 10, 1)?;
    with(rt, "a list type of two entries", 16, 2)?;
    with(rt, "a list type past the type list", 14, 6)?;
    with(rt, "a pair type of one entry", 22, 1)
}

fn more_types(rt: &impl Print) -> io::Result<()> {
    with(rt, "a pair type of three entries", 22, 3)?;
    with(rt, "a tuple type of one entry", 28, 1)?;
    with(rt, "a tuple type of four entries, one past the list", 28, 4)?;
    with(rt, "Data with no constructor", 34, 0)?;
    with(
        rt,
        "Data with three constructors, one past the section",
        34,
        3,
    )?;
    with(rt, "an opaque Int", 0, 256)?;
    with(rt, "Data with flag 3", 30, 773)?;
    with(rt, "Data with flag 4", 30, 1029)
}

fn constructors_and_entries(rt: &impl Print) -> io::Result<()> {
    with(rt, "a constructor of no field with a first", 36, 1)?;
    with(rt, "a constructor past the type list", 42, 2)?;
    with(rt, "a type entry of type 5", 44, 5)?;
    with(rt, "a type entry of type 6", 44, 6)?;
    with(rt, "the subject 5", 203, 5)?;
    with(rt, "the subject 6", 203, 6)
}

fn zero_bytes_and_kinds(rt: &impl Print) -> io::Result<()> {
    with(rt, "a zero byte that is 1", 120, 256)?;
    with(rt, "a pattern of kind 10", 120, 10)?;
    with(rt, "a discard with an a", 122, 1)?;
    with(rt, "a discard with a first", 124, 1)?;
    with(rt, "a variable with a first", 92, 1)?;
    with(rt, "an integer with an a", 82, 1)?;
    with(rt, "an integer past the pool", 84, 3)?;
    with(rt, "a byte string past the pool", 118, 3)
}

fn runs(rt: &impl Print) -> io::Result<()> {
    with(rt, "a list with an a", 138, 1)?;
    with(rt, "an empty list with a first", 140, 1)?;
    with(rt, "a tuple with an a", 130, 1)?;
    with(rt, "a pair with an a", 98, 1)?;
    with(rt, "an entry in no list", 134, 1)?;
    with_two(rt, "an entry in two lists", 140, 9, 142, 1)?;
    with(rt, "children past the child list", 134, 3)?;
    with_two(rt, "a tail that is an integer", 164, 4, 166, 3)
}

fn children_and_roots(rt: &impl Print) -> io::Result<()> {
    with(rt, "a child that is no pattern", 178, 13)?;
    with(rt, "a root that is no pattern", 184, 13)?;
    with(rt, "a root twice", 184, 9)?;
    with(rt, "a root that is a child", 184, 11)?;
    with(rt, "a child twice", 178, 10)?;
    with(rt, "a child that is a root", 178, 12)
}

// One pattern of a kind, with n of three discards inside, of type Int: what keeps the shape does not fit.
fn parent(rt: &impl Print, name: &str, kind: usize, n: u16) -> io::Result<()> {
    let mut b = [0u8; 256];
    let count = usize::from(n);
    words(&mut b, 6, &[kind, 0, 0, count]);
    words(&mut b, 14 + 8 * count, &[1, 2, 3]);
    word(&mut b, 14 + 10 * count, 0);
    let sizes = Sizes {
        patterns: n.saturating_add(1),
        children: n,
        ..ONE_CLAUSE
    };
    let length = end(&mut b, sizes, 0);
    check_first(rt, name, &b, length)
}

fn parents(rt: &impl Print) -> io::Result<()> {
    parent(rt, "an assign of none", 2, 0)?;
    parent(rt, "an assign of one", 2, 1)?;
    parent(rt, "an assign of two", 2, 2)?;
    parent(rt, "a list with tail of one", 6, 1)?;
    parent(rt, "a list with tail of two", 6, 2)?;
    parent(rt, "a pair of one", 8, 1)?;
    parent(rt, "a pair of two", 8, 2)?;
    parent(rt, "a pair of three", 8, 3)?;
    parent(rt, "a tuple of none", 9, 0)
}

// A child below its parent: pattern 1, a list of pattern 0.
fn child_below(rt: &impl Print) -> io::Result<()> {
    let mut b = [0u8; 64];
    words(&mut b, 14, &[5, 0, 0, 1]);
    word(&mut b, 22, 0);
    word(&mut b, 24, 1);
    let length = end(
        &mut b,
        Sizes {
            patterns: 2,
            children: 1,
            ..ONE_CLAUSE
        },
        0,
    );
    check_first(rt, "a child below its parent", &b, length)
}

fn with_depth(rt: &impl Print, name: &str, n: u16) -> io::Result<()> {
    let mut b = [0u8; 512];
    let length = nested(&mut b, n);
    check_first(rt, name, &b, length)
}

fn depths(rt: &impl Print) -> io::Result<()> {
    child_below(rt)?;
    with_depth(rt, "depth 12", 12)?;
    with_depth(rt, "depth 13", 13)
}

// ---- 7
// Type 0 is Int; types 1 and 2 are Data with so many constructors, each of so many fields. The flag stands in the kind's high byte.
fn data(
    rt: &impl Print,
    name: &str,
    kind: usize,
    constructors: usize,
    fields: usize,
) -> io::Result<()> {
    let mut b = [0u8; 128];
    words(&mut b, 6, &[kind, 0, constructors]);
    words(&mut b, 12, &[kind, 0, constructors]);
    words(&mut b, 18, &[0, fields, 0, fields]);
    let length = end(
        &mut b,
        Sizes {
            types: 3,
            constructors: 2,
            entries: 2,
            ..ONE_CLAUSE
        },
        1,
    );
    check_first(rt, name, &b, length)
}

fn transparents(rt: &impl Print) -> io::Result<()> {
    data(rt, "opaque, one constructor, one field", 261, 1, 1)?;
    data(rt, "not opaque", 5, 1, 1)?;
    data(rt, "opaque and list-decorated", 773, 1, 1)?;
    data(rt, "opaque, two constructors", 261, 2, 1)?;
    data(rt, "opaque, two fields", 261, 1, 2)
}

// ---- 9
// A pattern of kind 3 or 4 with this text, of type Int or Bytes: types 0 and 1.
fn text(rt: &impl Print, name: &str, kind: usize, subject: usize, text: &[u8]) -> io::Result<()> {
    let mut b = [0u8; 256];
    words(&mut b, 6, &[1, 0, 0]);
    words(&mut b, 12, &[kind, 0, 0, text.len()]);
    bytes(&mut b, 22, text);
    let sizes = Sizes {
        types: 2,
        pool: u16::try_from(text.len()).unwrap_or(0),
        ..ONE_CLAUSE
    };
    let length = end(&mut b, sizes, subject);
    check_first(rt, name, &b, length)
}

fn integers(rt: &impl Print) -> io::Result<()> {
    text(rt, "0", 3, 0, b"0")?;
    text(rt, "-0", 3, 0, b"-0")?;
    text(rt, "01", 3, 0, b"01")?;
    text(rt, "-", 3, 0, b"-")?;
    text(rt, "an integer of no text", 3, 0, b"")?;
    text(rt, "-10", 3, 0, b"-10")?;
    text(rt, "--1", 3, 0, b"--1")?;
    text(rt, "1a", 3, 0, b"1a")
}

fn long_texts(rt: &impl Print) -> io::Result<()> {
    text(
        rt,
        "64 digits",
        3,
        0,
        b"1234567890123456789012345678901234567890123456789012345678901234",
    )?;
    text(
        rt,
        "65 digits",
        3,
        0,
        b"12345678901234567890123456789012345678901234567890123456789012345",
    )?;
    text(
        rt,
        "64 bytes",
        4,
        1,
        b"1234567890123456789012345678901234567890123456789012345678901234",
    )?;
    text(
        rt,
        "65 bytes",
        4,
        1,
        b"12345678901234567890123456789012345678901234567890123456789012345",
    )?;
    text(rt, "a byte string of no text", 4, 1, b"")
}

// ---- 10 and 11
fn misfits(rt: &impl Print) -> io::Result<()> {
    with(rt, "a tuple for a list", 203, 2)?;
    with(rt, "a constructor that the type has not", 74, 2)?;
    with(rt, "a constructor with too many arguments", 74, 0)?;
    with(rt, "a tuple for a pair", 96, 9)?;
    with(rt, "a byte string for an integer", 80, 4)?;
    with(rt, "a tuple of none in clause 1", 136, 9)
}

fn names(rt: &impl Print) -> io::Result<()> {
    with(rt, "a name twice in clause 0", 106, 7)?;
    with(rt, "a name of clause 0 in clause 1", 146, 8)?;
    with_two(rt, "a name twice in clause 1", 136, 1, 138, 7)
}

// ---- two faults at once: the earlier number, the lower place
fn two_faults(rt: &impl Print) -> io::Result<()> {
    with_two(rt, "a cut constructor, another length", 193, 46, 205, 206)?;
    with_two(rt, "a pattern of kind 10, a type of kind 6", 120, 10, 0, 6)?;
    with_two(
        rt,
        "text 1a, a constructor that the type has not",
        86,
        2,
        74,
        2,
    )?;
    with_two(
        rt,
        "clause 1 does not fit, a name twice in clause 0",
        136,
        9,
        106,
        7,
    )
}

fn lower_places(rt: &impl Print) -> io::Result<()> {
    with(rt, "the integer ab in pattern 7", 112, 3)?;
    with_two(
        rt,
        "the integer ab in pattern 7, 1a in pattern 3",
        112,
        3,
        86,
        2,
    )?;
    with_two(rt, "clauses 1 and 0 do not fit", 136, 9, 74, 2)
}

fn main(rt: HostRuntime) -> io::Result<()> {
    lengths(&rt)?;
    counts(&rt)?;
    more_counts(&rt)?;
    layouts(&rt)?;
    kinds_of_types(&rt)?;
    more_types(&rt)?;
    constructors_and_entries(&rt)?;
    zero_bytes_and_kinds(&rt)?;
    runs(&rt)?;
    children_and_roots(&rt)?;
    parents(&rt)?;
    depths(&rt)?;
    transparents(&rt)?;
    integers(&rt)?;
    long_texts(&rt)?;
    misfits(&rt)?;
    names(&rt)?;
    two_faults(&rt)?;
    lower_places(&rt)
}
