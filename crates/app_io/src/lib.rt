// What the programs share: a file or standard input read whole, and the listing of a sheet.
// No function asks anything of its caller, and what each counts are bytes of the buffer that it was lent.
#![tactic(auto)]

ghost use Rattle.std.specs.Prelude.{◌≡◌, length, IfOk, IfErr};
ghost use Rattle.io.specs.Counts.{IsPrefixLen};
ghost use Rattle.app_io.specs.Shown.{ShowsTree, ShowsSheet};

use base_numbers::panel::PANEL_MOST;
use base_numbers::sheet::SHEET_MOST;
use std::env::{Env, FillError};
use std::fmt::Display;
use std::fs;
use std::io::Read;
use std::rt::Files;

// Room for a sheet, and for a panel, with one byte more than either may have: a longer input fills it, and its length refuses it.
pub const SHEET_ROOM: usize = SHEET_MOST + 1;

pub const PANEL_ROOM: usize = PANEL_MOST + 1;

// More than any listing takes: 1,024 lines, 1,023 tests of at most 64 bytes, and at most 5,120 paths of at most 11 steps.
pub const HUGE_ROOM: usize = 2097152;

// Zeros. The contract gives only the length, which lending the array as a slice needs: so many are not counted out where it is lent.
pub fn huge_buffer() -> [u8; HUGE_ROOM]
    ensures { 2097152 ≡ length result }
{
    [0; HUGE_ROOM]
}

// An input that could not be read.
#[derive(Clone, Copy)]
pub struct Unread {
    // How many bytes stood in the buffer when the reading failed.
    pub count: usize,
}

// Says on standard error why a file cannot be read, of which `count` bytes were. A line that cannot be written is left out.
fn say_why(rt: &impl Eprint, name: &str, why: impl Display + Drop, count: usize) -> Unread
    ensures { result.count ≡ count }
{
    let what = if name.is_empty() {
        "a file without a name"
    } else {
        name
    };
    let _ = eprintln!(rt; "{what}: {why}");
    Unread { count }
}

// Reads until the buffer is full, the input ends or a read fails: how many bytes stand in the buffer then, and whether it failed.
fn fill_counted(reader: &mut impl Read, buf: &mut [u8]) -> (usize, std::io::Result<()>)
    ensures { IsPrefixLen result.0 buf.new }
{
    let mut count = 0;
    while count < buf.len() {
        match reader.read(&mut buf[count..]) {
            Ok(0) => break,
            Ok(n) => count += n,
            Err(error) => return (count, Err(error)),
        }
    }
    (count, Ok(()))
}

// Reads until the buffer is full or the input ends, and answers how many bytes that are.
pub fn fill(reader: &mut impl Read, buf: &mut [u8]) -> std::io::Result<usize>
    ensures { IfOk result (λ n. IsPrefixLen n buf.new) }
{
    let (count, read) = fill_counted(reader, buf);
    read?;
    Ok(count)
}

// How many bytes were read. Where a read fails, one line on standard error tells the input's name and why.
pub fn read_input(
    rt: &impl Eprint,
    name: &str,
    reader: &mut impl Read,
    buf: &mut [u8],
) -> Result<usize, Unread>
    ensures ok { IfOk result (λ n. IsPrefixLen n buf.new) }
    ensures err { IfErr result (λ e. IsPrefixLen e.count buf.new) }
{
    let (count, read) = fill_counted(reader, buf);
    match read {
        Ok(()) => Ok(count),
        Err(error) => Err(say_why(rt, name, error, count)),
    }
}

// Reads a file; where it cannot be read, one line on standard error says why. A name that is not UTF-8 names no file here.
pub fn read_file<R: Files + Eprint>(rt: &R, path: &[u8], buf: &mut [u8]) -> Result<usize, Unread>
    ensures ok { IfOk result (λ n. IsPrefixLen n buf.new) }
    ensures err { IfErr result (λ e. IsPrefixLen e.count buf.new) }
{
    let Ok(name) = str::from_utf8(path) else {
        return Err(say_why(rt, "the name of a file", "it is not UTF-8", 0));
    };
    match fs::open(rt, name) {
        Ok(mut file) => read_input(rt, name, &mut file, buf),
        Err(error) => Err(say_why(rt, name, error, 0)),
    }
}

// Why an argument is no name of a file, in the words that the system has for it.
fn no_name(error: FillError) -> &'static str {
    match error {
        FillError::NotPresent => "Invalid argument",
        FillError::TooLong => "File name too long",
    }
}

// Reads the file that argument i names.
pub fn read_argument<R: Env + Files + Eprint>(
    rt: &R,
    i: usize,
    buf: &mut [u8],
) -> Result<usize, Unread>
    ensures ok { IfOk result (λ n. IsPrefixLen n buf.new) }
    ensures err { IfErr result (λ e. IsPrefixLen e.count buf.new) }
{
    let mut path = io::buffer();
    match rt.arg(i, &mut path) {
        Ok(n) => read_file(rt, &path[..n], buf),
        Err(error) => Err(say_why(rt, "the name of a file", no_name(error), 0)),
    }
}

// How many arguments there are; the first is the program's own name.
pub fn argument_count(rt: &impl Env) -> usize {
    let mut name = [0u8; 1];
    (0..usize::MAX)
        .find(|&i| matches!(rt.arg(i, &mut name), Err(FillError::NotPresent)))
        .unwrap_or(usize::MAX)
}

// The listing of a tree file; none where it has no room or is no tree.
fn list_tree(tree: &[u8], out: &mut [u8]) -> Option<usize>
    ensures { ShowsTree tree.now out.old result out.new }
{
    app_listing::listing(tree, out).unwrap_or(None)
}

// The listing of a sheet's tree, or the line of its refusal: how many bytes it has, and none where it has no room.
pub fn list(sheet: &[u8], out: &mut [u8]) -> Option<usize>
    ensures { ShowsSheet sheet.now out.old result out.new }
{
    let mut tree = io::large_buffer();
    let mut work = io::large_buffer();
    match dewmycel::build(sheet, &mut tree, &mut work) {
        Ok(built) => list_tree(&tree[..built.length as usize], out),
        Err(refusal) => app_listing::refused_line(refusal.reason.number(), refusal.place, out),
    }
}
