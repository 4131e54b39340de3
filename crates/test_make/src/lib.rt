// What the test programs share: sheets and panels made piece by piece in a buffer, and the line of a refusal. Whatever would lie past
// the buffer's end is left out. Each contract is one store at a place; a store past the end changes nothing, so none asks for room.
#![tactic(auto)]

ghost use Rattle.std.specs.Prelude.{◌≡◌, ◌-◌};
ghost use Rattle.base_words.specs.Stored.{stored};
ghost use Rattle.test_make.specs.Pieces.{low_word, words_of, number_words, trailer_at, trailer_of, sheet_size};

use base_numbers::sheet::{
    CHILD_SIZE, CLAUSE_SIZE, CONSTRUCTOR_SIZE, ENTRY_SIZE, PATTERN_SIZE, SHEET_TRAILER, TYPE_SIZE,
};
use format_parts::refusals::Refusal;
use std::io;

// The bytes of a text from byte i on.
pub fn bytes(b: &mut [u8], i: usize, text: &[u8])
    ensures { b.new ≡ stored b.old i text.now }
{
    let from = i.min(b.len());
    let n = text.len().min(b.len() - from);
    b[from..from + n].copy_from_slice(&text[..n]);
}

// The word x at byte i; of a larger number its two low bytes.
pub fn word(b: &mut [u8], i: usize, x: usize)
    ensures { b.new ≡ stored b.old i (low_word x) }
{
    let low = (x % 65536) as u16;
    bytes(b, i, &low.to_le_bytes());
}

// Words from byte i on: a type (its kind with its flag, first, count), a pattern or a record (its kind with the zero byte, a, first,
// count), constructors, type entries, children or roots.
pub fn words(b: &mut [u8], i: usize, xs: &[usize])
    ensures { b.new ≡ stored b.old i (words_of xs.now) }
{
    let mut at = i;
    for &x in xs {
        if b.len() <= at {
            return;
        }
        word(b, at, x);
        at += 2;
    }
}

// The numbers from `first` up to `end`, without it, as words from byte i on.
pub fn numbers(b: &mut [u8], i: usize, first: usize, end: usize)
    ensures { b.new ≡ stored b.old i (number_words first (end - first)) }
{
    let mut at = i;
    for x in first..end {
        if b.len() <= at {
            return;
        }
        word(b, at, x);
        at += 2;
    }
}

// How many records a sheet has; of the pool, how many bytes.
#[derive(Clone, Copy, Default)]
pub struct Sizes {
    pub types: u16,
    pub constructors: u16,
    pub entries: u16,
    pub patterns: u16,
    pub children: u16,
    pub clauses: u16,
    pub pool: u16,
}

// The least sheet: one type, one pattern, one clause.
pub const ONE_CLAUSE: Sizes = Sizes {
    types: 1,
    constructors: 0,
    entries: 0,
    patterns: 1,
    children: 0,
    clauses: 1,
    pool: 0,
};

// The trailer of a sheet of these sizes, and the length of the whole.
pub fn end(b: &mut [u8], n: Sizes, subject: usize) -> usize
    ensures { (result ≡ sheet_size n) × (b.new ≡ stored b.old (trailer_at n) (trailer_of n subject)) }
{
    let constructors = TYPE_SIZE * (n.types as usize);
    let entries = constructors + CONSTRUCTOR_SIZE * (n.constructors as usize);
    let patterns = entries + ENTRY_SIZE * (n.entries as usize);
    let children = patterns + PATTERN_SIZE * (n.patterns as usize);
    let clauses = children + CHILD_SIZE * (n.children as usize);
    let pool = clauses + CLAUSE_SIZE * (n.clauses as usize);
    let at = pool + n.pool as usize;
    let length = at + SHEET_TRAILER;
    words(
        b,
        at,
        &[
            0,
            constructors,
            entries,
            patterns,
            children,
            clauses,
            pool,
            subject,
            length,
        ],
    );
    length
}

// The line of a case that is refused.
pub fn say_refused(rt: &impl Print, name: &str, refusal: Refusal) -> io::Result<()> {
    let number = refusal.reason.number();
    let place = refusal.place;
    println!(rt; "{name}: refused {number} {place}")
}
