// Rows of a text as bytes: hexadecimal numbers of four digits, and bytes of two digits, each with one space behind it. What would lie
// past the end of a buffer is left out.
ghost use Rattle.std.specs.Prelude.{◌<◌, ◌≤◌, IfSome};

use base_words::{put_word, word_at};

fn digit(c: u8) -> Option<u8>
    ensures { IfSome result (λ d. d < 16) }
{
    match c {
        b'0'..=b'9' => Some(c - b'0'),
        b'a'..=b'f' => Some(c - b'a' + 10),
        _ => None,
    }
}

// In a number, 16 stands for a digit that is none.
fn value(c: u8) -> usize
    ensures { result ≤ 16 }
{
    usize::from(digit(c).unwrap_or(16))
}

// The number of four digits at i of a line; 0 where the line is shorter.
pub fn number(line: &[u8], i: usize) -> usize
    ensures { result ≤ 69904 }
{
    let Some(rest) = line.get(i..) else {
        return 0;
    };
    let Some(&[a, b, c, d]) = rest.first_chunk::<4>() else {
        return 0;
    };
    4096 * value(a) + 256 * value(b) + 16 * value(c) + value(d)
}

// The bytes of a text, as far as there are digits, put at `at`.
pub fn put_bytes(text: &[u8], b: &mut [u8], at: usize) {
    // by a slice from `at` on: an iterator that skips to it takes a quarter longer where a row has many copies
    let Some(room) = b.get_mut(at..) else {
        return;
    };
    for (place, pair) in room.iter_mut().zip(text.chunks(3)) {
        let [high, low, ..] = pair else {
            return;
        };
        let (Some(high), Some(low)) = (digit(*high), digit(*low)) else {
            return;
        };
        *place = 16 * high + low;
    }
}

// The word at i, k more.
fn raise(b: &mut [u8], i: usize, k: usize)
    requires { k ≤ 69904 }
{
    if b.len() < 2 || b.len() - 2 < i {
        return;
    }
    if let Ok(x) = u16::try_from(usize::from(word_at(b, i)) + k) {
        put_word(b, i, x);
    }
}

// A row of copies: where the first one is put, how many, how long each is, which word of it counts them, then its bytes.
pub fn copies(line: &[u8], b: &mut [u8], at: usize)
    requires { at ≤ 69904 }
{
    let many = number(line, 6);
    let size = number(line, 11);
    let counts = number(line, 16);
    let text = line.get(21..).unwrap_or(&[]);
    let mut to = at;
    for k in 0..many {
        put_bytes(text, b, to);
        raise(b, to + counts, k);
        to += size;
    }
}
