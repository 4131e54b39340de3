// Words of a byte buffer, low byte first, buffers set to zero, and the comparison of two texts.
// Each public contract is one equation with a definition of specs/Words or specs/Stored; nothing below this crate is the project's.
#![tactic(auto)]

ghost use Rattle.std.specs.Prelude.{◌≡◌, true, ◌+◌, ◌<◌, ◌≤◌, length};
ghost use Rattle.base_words.specs.Words.{word_at, word_bytes, text_at, same_text, zeros};
ghost use Rattle.base_words.specs.Stored.{stored};

// The word at i and i + 1.
pub fn word_at(s: &[u8], i: usize) -> u16
    requires { i + 1 < length s.now }
    ensures { result ≡ word_at s.now i }
{
    u16::from_le_bytes([s[i], s[i + 1]])
}

// The word v stored at i and i + 1.
pub fn put_word(b: &mut [u8], i: usize, v: u16)
    requires { i + 1 < length b.old }
    ensures { b.new ≡ stored b.old i (word_bytes v) }
{
    let [low, high] = v.to_le_bytes();
    b[i] = low;
    b[i + 1] = high;
}

// How many bytes are looked at in one go. The compiler knows this number, so it takes many bytes at once.
const BLOCK: usize = 1024;

// Whether each byte is 0: all their bits at once, since a search that may end early looks at one byte after another.
fn is_zero(block: &[u8]) -> bool
    ensures only_zeros { result ≡ true → block.now ≡ zeros (length block.now) }
    ensures all_zeros { block.now ≡ zeros (length block.now) → result ≡ true }
{
    block.iter().fold(0, |all, byte| all | byte) == 0
}

// Every byte of the block 0. Where they are 0 already none is written: to read them is quicker than to write them.
fn zero_block(block: &mut [u8])
    ensures { block.new ≡ zeros (length block.old) }
{
    if !is_zero(block) {
        block.fill(0);
    }
}

// Every byte 0.
pub fn zero_all(b: &mut [u8])
    ensures { b.new ≡ zeros (length b.old) }
{
    let whole = b.len() / BLOCK;
    for k in 0..whole {
        zero_block(&mut b[BLOCK * k..BLOCK * (k + 1)]);
    }
    zero_block(&mut b[BLOCK * whole..]);
}

// Every word 0, of a buffer that holds each word as one element.
pub fn zero_words(words: &mut [u16])
    ensures { words.new ≡ zeros (length words.old) }
{
    words.fill(0);
}

// Whether the n bytes of s from i on are those of t from j on.
pub fn same_text(s: &[u8], i: usize, t: &[u8], j: usize, n: usize) -> bool
    requires { (i + n ≤ length s.now) × (j + n ≤ length t.now) }
    ensures { result ≡ same_text (text_at s.now i n) (text_at t.now j n) }
{
    s[i..i + n] == t[j..j + n]
}
