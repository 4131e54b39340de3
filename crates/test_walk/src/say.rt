// What the walk answers, written as a line. The buffer is filled beforehand; a word after the bindings that is not zero is said.
use crate::rows::number;
use base_numbers::tree::BOUND_WORDS;
use format_parts::refusals::Reason;
use std::io;
use walk::{Leaf, WalkError};

fn say_binding(rt: &impl Print, binding: &[u16]) -> io::Result<()> {
    let [name, record, dropped] = binding else {
        return Ok(());
    };
    print!(rt; " ({name}, {record}, {dropped})")
}

// The first and the last of so many bindings, and those between where they are few.
fn say_bindings(rt: &impl Print, bound: &[u16], count: usize) -> io::Result<()> {
    for binding in bound.chunks_exact(BOUND_WORDS).take(count.min(3)) {
        say_binding(rt, binding)?;
    }
    if 3 < count {
        rt.write_all(b" ..")?;
        if let Some(last) = bound.chunks_exact(BOUND_WORDS).nth(count - 1) {
            say_binding(rt, last)?;
        }
    }
    Ok(())
}

// Whether every word from `from` on is zero.
fn say_rest(rt: &impl Print, bound: &[u16], from: usize) -> io::Result<()> {
    if bound.iter().skip(from).any(|&word| word != 0) {
        rt.write_all(b", and a word that is not zero")?;
    }
    rt.write_all(b"\n")
}

fn say(
    rt: &impl Print,
    name: &[u8],
    answer: Result<Option<Leaf>, WalkError>,
    bound: &[u16],
) -> io::Result<()> {
    rt.write_all(name)?;
    match answer {
        Ok(Some(leaf)) => {
            let count = usize::from(leaf.count);
            print!(rt; ": leaf {}", leaf.clause)?;
            say_bindings(rt, bound, count)?;
            say_rest(rt, bound, BOUND_WORDS * count)
        }
        Ok(None) => {
            rt.write_all(b": no leaf")?;
            say_rest(rt, bound, 0)
        }
        Err(WalkError::Stuck { node, step }) => {
            print!(rt; ": refused {} {node} {step}", Reason::Stuck.number())?;
            say_rest(rt, bound, 0)
        }
        Err(WalkError::Refused(refusal)) => {
            print!(rt; ": refused {} {}", refusal.reason.number(), refusal.place)?;
            say_rest(rt, bound, 0)
        }
    }
}

// The name of a walk stands behind its letter and two numbers: how many bytes of the tree there are, and how many of the panel.
const NAME_AT: usize = 11;

pub fn walked(
    rt: &impl Print,
    line: &[u8],
    t: &[u8],
    v: &[u8],
    bound: &mut [u16],
) -> io::Result<()> {
    let tree = t.get(..number(line, 1));
    let panel = v.get(..number(line, 6));
    let (Some(tree), Some(panel), Some(name)) = (tree, panel, line.get(NAME_AT..)) else {
        return Ok(());
    };
    let answer = walk::walk(tree, panel, bound);
    say(rt, name, answer, bound)
}
