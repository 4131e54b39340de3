// Panels made record by record, for the cases. Whatever would lie past the end of the buffer is left out.
use test_make::{bytes, numbers, words};

// Record r: the kind byte with the zero byte after it, a, first, count.
pub fn record(b: &mut [u8], r: usize, fields: [usize; 4]) {
    if r < 4096 {
        words(b, 8 * r, &fields);
    }
}

// The trailer of a panel of n records, so many parts and so many bytes of text, and the length of the whole.
pub fn end(b: &mut [u8], n: u16, parts: u16, pool: u16) -> usize {
    let parts_at = 8 * usize::from(n);
    let pool_at = parts_at + 2 * usize::from(parts);
    let at = pool_at + usize::from(pool);
    words(b, at, &[0, parts_at, pool_at, at + 8]);
    at + 8
}

// One record of the kind given, with the text given.
pub fn leaf(b: &mut [u8], kind: usize, text: &[u8]) -> usize {
    if 1000 < text.len() {
        return 0;
    }
    record(b, 0, [kind, 0, 0, text.len()]);
    bytes(b, 8, text);
    end(b, 1, 0, text.len() as u16)
}

// n lists, each inside the one before, the last one empty.
pub fn chain(b: &mut [u8], n: u16) -> usize {
    if n == 0 {
        return 0;
    }
    let last = usize::from(n) - 1;
    for r in 0..last {
        record(b, r, [2, 0, r, 1]);
    }
    record(b, last, [2, 0, 0, 0]);
    numbers(b, 8 * (last + 1), 1, last + 1);
    end(b, n, n - 1, 0)
}

// A list of n - 1 empty byte strings.
pub fn wide(b: &mut [u8], n: u16) -> usize {
    if n == 0 {
        return 0;
    }
    let count = usize::from(n);
    record(b, 0, [2, 0, 0, count - 1]);
    for r in 1..count {
        record(b, r, [1, 0, 0, 0]);
    }
    numbers(b, 8 * count, 1, count);
    end(b, n, n - 1, 0)
}

// A list of `-5`, `ab` and the empty byte string.
pub fn three(b: &mut [u8]) -> usize {
    wide(b, 4);
    record(b, 1, [0, 0, 0, 2]);
    record(b, 2, [1, 0, 2, 2]);
    bytes(b, 38, b"-5ab");
    end(b, 4, 3, 4)
}
