// What a pattern's record says of the cases that its row joins: the test of one without a tail, and its part in the longest lengths.
// Rests on the sheet's records and the arena's tests.
ghost use Rattle.std.specs.Prelude.{◌≡◌, ◌<◌};
ghost use Rattle.base_words.specs.Words.{pick};
ghost use Rattle.build_cases.specs.Rows.{exact_test, Small, arena_list_test, longer};

use base_numbers::{case_kinds, pattern_kinds};
use format_records::reading::Test;
use format_sheet::records::PatternRecord;

// The longest lengths of lists in a column, each one more than it is, or 0 where there is none: of those without a tail, and of those
// with, whose tail is not counted. They are the ends of ranges of lengths, as the rules have them: an option would be no plainer.
#[derive(Clone, Copy)]
pub struct Longest {
    pub tailless: usize,
    pub tails: usize,
}

// The longest lengths with those of one pattern more.
pub(crate) fn longer_of(r: PatternRecord, longest: Longest) -> Longest
    requires { Small r }
    ensures { result ≡ longer r longest }
{
    match r.kind {
        pattern_kinds::LIST => Longest {
            tailless: longest.tailless.max(r.count + 1),
            ..longest
        },
        pattern_kinds::LIST_WITH_TAIL => Longest {
            tails: longest.tails.max(r.count),
            ..longest
        },
        _ => longest,
    }
}

// The test of a pattern without a tail.
pub(crate) fn test_of(r: PatternRecord) -> Test
    requires { Small r }
    ensures { result ≡ exact_test r }
{
    let kind = r.kind;
    let start = r.first as u16;
    let count = r.count as u16;
    match kind {
        pattern_kinds::INTEGER => Test::Text {
            kind: case_kinds::INT,
            start,
            count,
        },
        pattern_kinds::BYTE_STRING => Test::Text {
            kind: case_kinds::BYTES,
            start,
            count,
        },
        pattern_kinds::LIST => Test::List(count),
        _ => Test::Constr(r.a as u16),
    }
}

// The case of lists with so many elements, and a tail or none.
pub(crate) fn list_test(tail: bool, count: usize) -> Test
    requires { count < 65536 }
    ensures { result ≡ arena_list_test tail count }
{
    if tail {
        Test::Tailed(count as u16)
    } else {
        Test::List(count as u16)
    }
}

// The longest length of those with a tail, or of those without.
pub(crate) fn longest_with(longest: Longest, tail: bool) -> usize
    ensures { result ≡ pick tail longest.tails longest.tailless }
{
    if tail {
        longest.tails
    } else {
        longest.tailless
    }
}
