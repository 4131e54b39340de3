// The boundaries of document 01 for a panel: each line names a case and gives the answer of a call.
// The file stdout has the answers as 01 gives them, by hand.
#![tactic(auto)]

mod make;

use make::{chain, end, leaf, record, three, wide};
use std::io;
use test_make::{ONE_CLAUSE, Sizes, say_refused, words};

// The check of a panel.
fn check(rt: &impl Print, name: &str, panel: &[u8]) -> io::Result<()> {
    match format_panel::check(panel) {
        Ok(map) => {
            println!(rt;
                "{name}: accepted {} {}",
                map.records.count, map.parts.count
            )
        }
        Err(refusal) => say_refused(rt, name, refusal),
    }
}

// The check of the first n bytes.
fn check_first(rt: &impl Print, name: &str, b: &[u8], n: usize) -> io::Result<()> {
    match b.get(..n) {
        Some(panel) => check(rt, name, panel),
        None => Ok(()),
    }
}

// The text call and its twin.
fn text(rt: &impl Print, name: &str, panel: &[u8], r: u16, dropped: u16) -> io::Result<()> {
    match format_panel::text(panel, r, dropped) {
        Ok(span) => {
            print!(rt; "{name}: at {} {} `", span.start, span.count)?;
            rt.write_all(format_panel::text_part(panel, r, dropped))?;
            rt.write_all(b"`\n")
        }
        Err(refusal) => say_refused(rt, name, refusal),
    }
}

fn text_first(
    rt: &impl Print,
    name: &str,
    b: &[u8],
    n: usize,
    r: u16,
    dropped: u16,
) -> io::Result<()> {
    match b.get(..n) {
        Some(panel) => text(rt, name, panel, r, dropped),
        None => Ok(()),
    }
}

// The fit check.
fn fit(rt: &impl Print, name: &str, sheet: &[u8], panel: &[u8]) -> io::Result<()> {
    match fit::fit(sheet, panel) {
        Ok(()) => println!(rt; "{name}: fits"),
        Err(refusal) => say_refused(rt, name, refusal),
    }
}

fn fit_first(rt: &impl Print, name: &str, sheet: &[u8], b: &[u8], n: usize) -> io::Result<()> {
    match b.get(..n) {
        Some(panel) => fit(rt, name, sheet, panel),
        None => Ok(()),
    }
}

// ---- 21 and 22
// One empty byte string, with n bytes of text that nobody has.
fn with_pool(rt: &impl Print, name: &str, pool: u16) -> io::Result<()> {
    let mut b = [0u8; 20000];
    record(&mut b, 0, [1, 0, 0, 0]);
    let n = end(&mut b, 1, 0, pool);
    check_first(rt, name, &b, n)
}

// The same with 8 bytes after the record, and these starts and length in the trailer.
fn with_trailer(rt: &impl Print, name: &str, trailer: [usize; 4]) -> io::Result<()> {
    let mut b = [0u8; 24];
    record(&mut b, 0, [1, 0, 0, 0]);
    words(&mut b, 16, &trailer);
    check(rt, name, &b)
}

fn lengths(rt: &impl Print) -> io::Result<()> {
    let b = [0u8; 7];
    check(rt, "7 bytes", &b)?;
    let mut c = [0u8; 8];
    words(&mut c, 0, &[0, 0, 0, 8]);
    check(rt, "8 bytes, no record", &c)?;
    with_pool(rt, "1 record", 0)?;
    with_pool(rt, "16384 bytes", 16368)?;
    with_pool(rt, "16385 bytes", 16369)
}

fn layouts(rt: &impl Print) -> io::Result<()> {
    with_trailer(rt, "a pool of 8 bytes", [0, 8, 8, 24])?;
    with_trailer(rt, "a trailer that tells another length", [0, 8, 8, 25])?;
    with_trailer(rt, "records that start at 8", [8, 16, 16, 24])?;
    with_trailer(rt, "a record that is cut", [0, 12, 16, 24])
}

fn more_layouts(rt: &impl Print) -> io::Result<()> {
    with_trailer(rt, "a part that is cut", [0, 8, 11, 24])?;
    with_trailer(rt, "a pool that starts before the parts", [0, 8, 0, 24])?;
    with_trailer(rt, "a pool that starts past the trailer", [0, 8, 18, 24])
}

fn with_records(rt: &impl Print, name: &str, n: u16) -> io::Result<()> {
    let mut b = [0u8; 8192];
    let length = wide(&mut b, n);
    check_first(rt, name, &b, length)
}

fn with_depth(rt: &impl Print, name: &str, n: u16) -> io::Result<()> {
    let mut b = [0u8; 512];
    let length = chain(&mut b, n);
    check_first(rt, name, &b, length)
}

fn counts(rt: &impl Print) -> io::Result<()> {
    with_records(rt, "2 records", 2)?;
    with_records(rt, "512 records", 512)?;
    with_records(rt, "513 records", 513)?;
    with_depth(rt, "depth 32", 32)?;
    with_depth(rt, "depth 33", 33)
}

// ---- 23
// A root, a list and an empty byte string: kind word, a, first and count of the root; first and count of the list; the two parts.
fn shape(
    rt: &impl Print,
    name: &str,
    root: [usize; 4],
    list: [usize; 2],
    parts: [usize; 2],
) -> io::Result<()> {
    let mut b = [0u8; 64];
    let [first, count] = list;
    record(&mut b, 0, root);
    record(&mut b, 1, [2, 0, first, count]);
    record(&mut b, 2, [1, 0, 0, 0]);
    words(&mut b, 24, &parts);
    let n = end(&mut b, 3, 2, 0);
    check_first(rt, name, &b, n)
}

fn parts(rt: &impl Print) -> io::Result<()> {
    shape(rt, "a pair", [3, 0, 0, 2], [0, 0], [1, 2])?;
    shape(rt, "a list in a tuple", [4, 0, 0, 1], [1, 1], [1, 2])?;
    shape(
        rt,
        "a record that is two parts and one that is none",
        [3, 0, 0, 2],
        [0, 0],
        [1, 1],
    )?;
    shape(rt, "a part past the records", [3, 0, 0, 2], [0, 0], [1, 3])?;
    shape(rt, "the root as a part", [3, 0, 0, 2], [0, 0], [1, 0])
}

fn lists(rt: &impl Print) -> io::Result<()> {
    shape(rt, "a part in no list", [4, 0, 0, 1], [0, 0], [1, 2])?;
    shape(rt, "a part in two lists", [4, 0, 0, 2], [1, 1], [1, 2])?;
    shape(rt, "a record in its own list", [4, 0, 0, 1], [1, 1], [1, 1])?;
    shape(rt, "a list past the parts", [2, 0, 1, 2], [0, 0], [1, 2])?;
    shape(rt, "an empty list from 1", [3, 0, 0, 2], [1, 0], [1, 2])
}

fn fields(rt: &impl Print) -> io::Result<()> {
    shape(rt, "a pair of one", [3, 0, 0, 1], [1, 1], [1, 2])?;
    shape(rt, "kind 6", [6, 0, 0, 2], [0, 0], [1, 2])?;
    shape(rt, "a zero byte of 1", [259, 0, 0, 2], [0, 0], [1, 2])?;
    shape(rt, "a list with a", [2, 1, 0, 2], [0, 0], [1, 2])?;
    shape(rt, "constructor 1", [5, 1, 0, 2], [0, 0], [1, 2])
}

// A root that has no part: kind, first and count.
fn lone(rt: &impl Print, name: &str, kind: usize, first: usize, count: usize) -> io::Result<()> {
    let mut b = [0u8; 24];
    record(&mut b, 0, [kind, 0, first, count]);
    let n = end(&mut b, 1, 0, 4);
    check_first(rt, name, &b, n)
}

fn roots(rt: &impl Print) -> io::Result<()> {
    lone(rt, "an empty list", 2, 0, 0)?;
    lone(rt, "an empty tuple", 4, 0, 0)?;
    lone(rt, "a text of all the pool", 1, 0, 4)?;
    lone(rt, "a text past the pool", 1, 1, 4)
}

// ---- 24
fn integer(rt: &impl Print, name: &str, digits: &[u8]) -> io::Result<()> {
    let mut b = [0u8; 256];
    let n = leaf(&mut b, 0, digits);
    check_first(rt, name, &b, n)
}

// A byte string of n zero bytes.
fn byte_string(rt: &impl Print, name: &str, n: u16) -> io::Result<()> {
    let mut b = [0u8; 256];
    record(&mut b, 0, [1, 0, 0, usize::from(n)]);
    let length = end(&mut b, 1, 0, n);
    check_first(rt, name, &b, length)
}

fn integers(rt: &impl Print) -> io::Result<()> {
    integer(rt, "`0`", b"0")?;
    integer(rt, "`-0`", b"-0")?;
    integer(rt, "`01`", b"01")?;
    integer(rt, "`-1`", b"-1")
}

fn more_integers(rt: &impl Print) -> io::Result<()> {
    integer(rt, "`-`", b"-")?;
    integer(rt, "`10`", b"10")?;
    integer(rt, "`1a`", b"1a")?;
    integer(rt, "an integer of no text", b"")
}

fn texts(rt: &impl Print) -> io::Result<()> {
    integer(
        rt,
        "64 digits",
        b"1234567812345678123456781234567812345678123456781234567812345678",
    )?;
    integer(
        rt,
        "65 digits",
        b"12345678123456781234567812345678123456781234567812345678123456781",
    )?;
    byte_string(rt, "0 bytes of text", 0)?;
    byte_string(rt, "64 bytes of text", 64)?;
    byte_string(rt, "65 bytes of text", 65)
}

// ---- the text call, on the list of `-5`, `ab` and the empty byte string
fn position(rt: &impl Print, name: &str, r: u16, dropped: u16) -> io::Result<()> {
    let mut b = [0u8; 64];
    let n = three(&mut b);
    text_first(rt, name, &b, n, r, dropped)
}

fn positions(rt: &impl Print) -> io::Result<()> {
    position(rt, "the list", 0, 0)?;
    position(rt, "the integer", 1, 0)?;
    position(rt, "dropped 1 on an integer", 1, 1)?;
    position(rt, "the byte string", 2, 0)?;
    position(rt, "the empty byte string", 3, 0)?;
    position(rt, "a record past the last", 4, 0)?;
    let b = [0u8; 7];
    text(rt, "a text of 7 bytes", &b, 0, 0)
}

// ---- 25
// One clause, a discard, on type 1. Types: 0 Int; 1 a tuple of types 0 and 2; 2 Data of two constructors, the first without a field,
// the second with one of type 0.
fn sheet(b: &mut [u8]) {
    words(b, 6, &[4, 0, 2]);
    words(b, 12, &[5, 0, 2]);
    words(b, 18, &[0, 0, 2, 1]);
    words(b, 26, &[0, 2, 0]);
    let sizes = Sizes {
        types: 3,
        constructors: 2,
        entries: 3,
        ..ONE_CLAUSE
    };
    test_make::end(b, sizes, 1);
}

// A root of the kind given, of the integer `7` and a constructor, whose one part is the `7` of the kind given.
fn fitting(
    rt: &impl Print,
    name: &str,
    root: usize,
    number: usize,
    field: usize,
) -> io::Result<()> {
    let mut b = [0u8; 64];
    record(&mut b, 0, [root, 0, 0, 2]);
    record(&mut b, 1, [0, 0, 0, 1]);
    record(&mut b, 2, [5, number, 2, 1]);
    record(&mut b, 3, [field, 0, 0, 1]);
    words(&mut b, 32, &[1, 2, 3, 55]);
    let n = end(&mut b, 4, 3, 1);
    let mut s = [0u8; 60];
    sheet(&mut s);
    fit_first(rt, name, &s, &b, n)
}

fn fits(rt: &impl Print) -> io::Result<()> {
    fitting(
        rt,
        "a tuple of an integer and constructor 1 of an integer",
        4,
        1,
        0,
    )?;
    fitting(rt, "a list where a tuple is wanted", 2, 1, 0)?;
    fitting(rt, "a pair where a tuple is wanted", 3, 1, 0)?;
    fitting(rt, "a constructor number one past its type", 4, 2, 0)?;
    fitting(rt, "constructor 0 with a part", 4, 0, 0)?;
    fitting(rt, "a byte string where an integer is wanted", 4, 1, 1)
}

fn refusals(rt: &impl Print) -> io::Result<()> {
    let b = [0u8; 17];
    fit(rt, "a sheet of 17 bytes", &b, &b)?;
    let mut s = [0u8; 60];
    sheet(&mut s);
    fit(rt, "a panel of 17 bytes that tells none", &s, &b)
}

fn main(rt: HostRuntime) -> io::Result<()> {
    lengths(&rt)?;
    layouts(&rt)?;
    more_layouts(&rt)?;
    counts(&rt)?;
    parts(&rt)?;
    lists(&rt)?;
    fields(&rt)?;
    roots(&rt)?;
    integers(&rt)?;
    more_integers(&rt)?;
    texts(&rt)?;
    positions(&rt)?;
    fits(&rt)?;
    refusals(&rt)
}
