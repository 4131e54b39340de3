// The lister's work on each file that an argument names: a line with the name, then the listing or the refusal. Of a listing
// of more than 20,000 bytes it writes the first line, how many bytes there are, and their checksum, Adler-32.
//
// The files of data/ are hand-made sheets: document 01's P6 to P12, and its limits on clauses, nodes, bindings, patterns and
// depth, from both sides. What stdout has was not made by this program: tools/answers.py takes each listing from the Rust
// module itself, and each refusal from the reference of tools/beside, which was written from the document.
#![tactic(auto)]

ghost use Rattle.io.specs.Counts.{IsPrefixLen};

use app_io::SHEET_ROOM;
use std::env::Env;
use std::rt::Files;

// The longest listing that is written whole.
const SHOWN_MOST: usize = 20000;

// Of Adler-32: the largest prime below 65,536.
const PRIME: u32 = 65521;

// Adler-32: the sum of the bytes, and above it the sum of what that was after each byte.
fn checksum(text: &[u8]) -> u32 {
    let mut bytes = 1;
    let mut sums = 0;
    for &x in text {
        bytes = (bytes + u32::from(x)) % PRIME;
        sums = (sums + bytes) % PRIME;
    }
    sums * 65536 + bytes
}

// How many bytes the first line has, without its end.
fn first_line(text: &[u8]) -> usize
    ensures { IsPrefixLen result text.now }
{
    text.iter().position(|&c| c == b'\n').unwrap_or(text.len())
}

fn write_short(rt: &impl Print, text: &[u8]) -> std::io::Result<()> {
    let n = first_line(text);
    rt.write_all(&text[..n])?;
    let count = text.len();
    let sum = checksum(text);
    println!(rt; "\n{count} bytes, checksum {sum:08x}")
}

fn write(rt: &impl Print, text: &[u8]) -> std::io::Result<()> {
    if SHOWN_MOST < text.len() {
        return write_short(rt, text);
    }
    rt.write_all(text)
}

fn list(rt: &impl Print, sheet: &[u8]) -> std::io::Result<()> {
    let mut out = app_io::huge_buffer();
    match app_io::list(sheet, &mut out) {
        Some(n) => write(rt, &out[..n]),
        None => Ok(()),
    }
}

fn write_name(rt: &(impl Env + Print), i: usize) -> std::io::Result<()> {
    let mut name = io::buffer();
    if let Ok(n) = rt.arg(i, &mut name) {
        rt.write_all(&name[..n])?;
    }
    rt.write_all(b"\n")
}

fn list_argument<R: Env + Files + Print + Eprint>(rt: &R, i: usize) -> std::io::Result<()> {
    let mut sheet = [0u8; SHEET_ROOM];
    let Ok(n) = app_io::read_argument(rt, i, &mut sheet) else {
        return Ok(());
    };
    write_name(rt, i)?;
    list(rt, &sheet[..n])
}

fn list_arguments<R: Env + Files + Print + Eprint>(rt: &R, count: usize) -> std::io::Result<()> {
    for i in 1..count {
        list_argument(rt, i)?;
    }
    Ok(())
}

fn main(rt: HostRuntime) -> std::io::Result<()> {
    let count = app_io::argument_count(&rt);
    if count < 2 {
        return eprintln!(rt; "usage: listings SHEET ..");
    }
    list_arguments(&rt, count)
}
