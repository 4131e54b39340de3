// Rule 4: whether the test of a pattern belongs to a case, whose test is as the arena has it: a text by where it is in the pool.
// A list with tail belongs to the case of each length from the number of its elements on.
ghost use Rattle.std.specs.Prelude.{◌≡◌, ◌+◌, ◌≤◌};
ghost use Rattle.base_words.specs.Words.{same_text};
ghost use Rattle.spec_rules.specs.SheetFile.{pool_size, pool_text};
ghost use Rattle.format_sheet.specs.Check.{SheetAccepts};
ghost use Rattle.build_matrix.specs.Ready.{TestKnown};
ghost use Rattle.build_matrix.specs.Meant.{joins_test, InPool, covers_constructor, text_pattern, covers_text, covers_tailed, covers_list};
ghost use Rattle.build_matrix.specs.Promises.{TextInPool};

use base_numbers::{case_kinds, pattern_kinds};
use base_words::same_text;
use format_records::reading::Test;
use format_sheet::SheetMap;
use format_sheet::records::{PatternRecord, pattern_at};

// Two texts of the pool are the same.
fn same_texts(
    sheet: &[u8],
    map: SheetMap,
    start: usize,
    count: usize,
    other: usize,
    size: usize,
) -> bool
    requires { SheetAccepts sheet.now map × (start + count ≤ pool_size sheet.now) × (other + size ≤ pool_size sheet.now) }
    ensures { result ≡ same_text (pool_text sheet.now start count) (pool_text sheet.now other size) }
{
    count == size
        && same_text(
            sheet,
            map.pool.start + start,
            sheet,
            map.pool.start + other,
            count,
        )
}

fn covers_constructor(r: PatternRecord, number: u16) -> bool
    ensures { result ≡ covers_constructor r number }
{
    r.kind == pattern_kinds::CONSTRUCTOR && usize::from(number) == r.a
}

// The kind of a pattern with such a text: an integer, or a byte string.
fn text_pattern(kind: u8) -> u8
    ensures { result ≡ text_pattern kind }
{
    if kind == case_kinds::INT {
        pattern_kinds::INTEGER
    } else {
        pattern_kinds::BYTE_STRING
    }
}

fn covers_text(
    sheet: &[u8],
    map: SheetMap,
    r: PatternRecord,
    kind: u8,
    start: u16,
    count: u16,
) -> bool
    requires { SheetAccepts sheet.now map × (start + count ≤ pool_size sheet.now) × TextInPool sheet.now r }
    ensures { result ≡ covers_text sheet.now r kind start count }
{
    r.kind == text_pattern(kind)
        && same_texts(
            sheet,
            map,
            usize::from(start),
            usize::from(count),
            r.first,
            r.count,
        )
}

fn covers_tailed(r: PatternRecord, count: u16) -> bool
    ensures { result ≡ covers_tailed r count }
{
    r.kind == pattern_kinds::LIST_WITH_TAIL && r.count <= usize::from(count) + 1
}

fn covers_list(r: PatternRecord, count: u16) -> bool
    ensures { result ≡ covers_list r count }
{
    (r.kind == pattern_kinds::LIST && usize::from(count) == r.count) || covers_tailed(r, count)
}

// The test of pattern p belongs to the case.
pub(crate) fn covers(sheet: &[u8], map: SheetMap, p: usize, test: Test) -> bool
    requires { SheetAccepts sheet.now map × TestKnown sheet.now p × InPool sheet.now test }
    ensures { result ≡ joins_test sheet.now test p }
{
    let r = pattern_at(sheet, map, p);
    match test {
        Test::Constr(number) => covers_constructor(r, number),
        Test::Text { kind, start, count } => covers_text(sheet, map, r, kind, start, count),
        Test::List(n) => covers_list(r, n),
        Test::Tailed(n) => covers_tailed(r, n),
    }
}
