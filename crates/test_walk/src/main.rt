// The walk on real bytes. Standard input has trees and panels as rows of bytes, and the walks of one on the other; a walk gives a line
// with its name and the call's answer, with (name, record, dropped) for each binding.
// The file stdin says what its rows are; the file stdout has the answers as 01 gives them, and 02 the node and step of 32, by hand.
#![tactic(auto)]

mod rows;
mod say;

use rows::{copies, number, put_bytes};
use say::walked;
use test_make::bytes;

// The bytes of a row stand behind its letter and its first number.
const BYTES_AT: usize = 6;

// A walk by this row, with a buffer of 576 words, or of one fewer or one more. It is filled beforehand, so that a word that is left
// as it was shows.
fn walk_row(
    rt: &impl Print,
    kind: u8,
    line: &[u8],
    tree: &[u8],
    panel: &[u8],
) -> std::io::Result<()> {
    match kind {
        b'-' => walked(rt, line, tree, panel, &mut [7; 575]),
        b'+' => walked(rt, line, tree, panel, &mut [7; 577]),
        _ => walked(rt, line, tree, panel, &mut [7; 576]),
    }
}

// What a row says is done: to the tree and the one that is tried, to the panel, or a walk, after which the tree is tried as it was.
fn do_row(
    rt: &impl Print,
    line: &[u8],
    tree: &mut [u8],
    tried: &mut [u8],
    panel: &mut [u8],
) -> std::io::Result<()> {
    let Some(text) = line.get(BYTES_AT..) else {
        return Ok(());
    };
    let at = number(line, 1);
    let kind = line[0];
    match kind {
        b't' => {
            put_bytes(text, tree, at);
            put_bytes(text, tried, at);
        }
        b'*' => {
            copies(line, tree, at);
            bytes(tried, 0, tree);
        }
        b'=' => put_bytes(text, tried, at),
        b'p' => put_bytes(text, panel, at),
        b';' => {}
        _ => {
            walk_row(rt, kind, line, tried, panel)?;
            bytes(tried, 0, tree);
        }
    }
    Ok(())
}

fn do_rows(
    rt: &impl Print,
    all: &[u8],
    tree: &mut [u8],
    tried: &mut [u8],
    panel: &mut [u8],
) -> std::io::Result<()> {
    for line in all.split(|&c| c == b'\n') {
        do_row(rt, line, tree, tried, panel)?;
    }
    Ok(())
}

fn main(rt: HostRuntime) -> std::io::Result<()> {
    let mut all = io::large_buffer();
    let n = app_io::fill(&mut rt.stdin(), &mut all)?;
    let mut tree = io::large_buffer();
    let mut tried = io::large_buffer();
    let mut panel = io::large_buffer();
    do_rows(&rt, &all[..n], &mut tree, &mut tried, &mut panel)
}
