// The three answers of `clause_pattern`: each line names a case and gives the answer, and the file stdout has them by hand.
#![tactic(auto)]

use format_sheet_reader::clause_pattern;
use std::io;
use test_make::{ONE_CLAUSE, Sizes, end, say_refused, word, words};

// One type, Int, the subject's; pattern 0 is the variable of name 7, pattern 1 a discard; clause 0 has root 1, clause 1 has root 0.
fn sheet(b: &mut [u8]) {
    words(b, 6, &[1, 7, 0, 0]);
    word(b, 22, 1);
    let sizes = Sizes {
        patterns: 2,
        clauses: 2,
        ..ONE_CLAUSE
    };
    end(b, sizes, 0);
}

fn show(rt: &impl Print, name: &str, sheet: &[u8], c: u16) -> io::Result<()> {
    match clause_pattern(sheet, c) {
        Ok(Some(r)) => println!(rt; "{name}: kind {} a {}", r.kind, r.a),
        Ok(None) => println!(rt; "{name}: no clause"),
        Err(refusal) => say_refused(rt, name, refusal),
    }
}

fn main(rt: HostRuntime) -> io::Result<()> {
    let mut s = [0u8; 44];
    sheet(&mut s);
    show(&rt, "clause 0", &s, 0)?;
    show(&rt, "clause 1", &s, 1)?;
    show(&rt, "clause 2", &s, 2)?;
    let b = [0u8; 17];
    show(&rt, "17 bytes", &b, 0)
}
