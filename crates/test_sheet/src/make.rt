// Sheets made record by record, for the cases. Whatever would lie past the end of the buffer is left out.
use test_make::{ONE_CLAUSE, Sizes, end, numbers, words};

// A list of n discards, of type List of Int: pattern 0 with the patterns 1 to n.
pub fn list_of(b: &mut [u8], n: u16) -> usize {
    if 300 < n {
        return 0;
    }
    let count = usize::from(n);
    words(b, 6, &[2, 0, 1]);
    words(b, 14, &[5, 0, 0, count]);
    numbers(b, 22 + 8 * count, 1, count + 1);
    let sizes = Sizes {
        types: 2,
        entries: 1,
        patterns: n + 1,
        children: n,
        ..ONE_CLAUSE
    };
    end(b, sizes, 1)
}

// n clauses, each a discard of its own.
pub fn clauses(b: &mut [u8], n: u16) -> usize {
    let count = usize::from(n);
    numbers(b, 6 + 8 * count, 0, count);
    let sizes = Sizes {
        patterns: n,
        clauses: n,
        ..ONE_CLAUSE
    };
    end(b, sizes, 0)
}

// n patterns, each but the last an assign of the next one.
pub fn nested(b: &mut [u8], n: u16) -> usize {
    if n == 0 {
        return 0;
    }
    let count = usize::from(n);
    for p in 0..count - 1 {
        words(b, 6 + 8 * p, &[2, p, p, 1]);
    }
    numbers(b, 6 + 8 * count, 1, count);
    let sizes = Sizes {
        patterns: n,
        children: n - 1,
        ..ONE_CLAUSE
    };
    end(b, sizes, 0)
}
