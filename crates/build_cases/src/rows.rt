// A pass down the rows of a column, by the numbers of their tests' patterns: a test without a tail meets its one case, one with a tail
// rising cases up to the longest lengths of the column. Rests on the meeting of one test and on the sheet's records.
ghost use Rattle.std.specs.Prelude.{◌≡◌, ◌-◌, ◌≤◌};
ghost use Rattle.spec_accepted.specs.SheetFacts.{Laid};
ghost use Rattle.format_sheet.specs.Sections.{map_of};
ghost use Rattle.format_sheet.specs.Check.{SheetAccepts};
ghost use Rattle.build_matrix.specs.Ready.{TestKnown};
ghost use Rattle.build_cases.specs.SoFar.{Begun, Meets};
ghost use Rattle.build_cases.specs.Rows.{rise_to, meet_test, meet_tests};
ghost use Rattle.build_cases.specs.Promises.{PassAsked};

use crate::meet::meet;
use crate::tests::{Longest, list_test, longest_with, test_of};
use base_numbers::pattern_kinds;
use format_sheet::SheetMap;
use format_sheet::records::pattern_at;

// What a pass meets: the cases with a tail or those without, of a column with these longest lengths.
#[derive(Clone, Copy)]
pub struct Pass {
    pub tail: bool,
    pub longest: Longest,
}

// The cases of lists with `least` elements, one more, .. up to `end` met.
fn meet_rising(
    sheet: &[u8],
    map: SheetMap,
    work: &mut [u8],
    from: usize,
    to: usize,
    tail: bool,
    least: usize,
    end: usize,
) -> usize
    requires laid { Laid sheet.now × (map ≡ map_of sheet.now) × (end ≤ 65536) }
    requires begun { Begun sheet.now work.old from to }
    ensures { Meets sheet.now work.old from to (rise_to from tail least (end - least)) result work.new }
{
    let mut top = to;
    for i in least..end {
        top = meet(sheet, map, work, from, top, list_test(tail, i));
    }
    top
}

// The cases met that the row of pattern p joins, of those of the pass.
fn meet_test(
    sheet: &[u8],
    map: SheetMap,
    pass: Pass,
    p: usize,
    work: &mut [u8],
    from: usize,
    to: usize,
) -> usize
    requires sheet_accepts { SheetAccepts sheet.now map × TestKnown sheet.now p × (pass.longest.tailless ≤ 65536) × (pass.longest.tails ≤ 65536) }
    requires begun { Begun sheet.now work.old from to }
    ensures { Meets sheet.now work.old from to (meet_test sheet.now from pass.tail pass.longest p) result work.new }
{
    let r = pattern_at(sheet, map, p);
    if r.kind == pattern_kinds::LIST_WITH_TAIL {
        let least = r.count - 1;
        let end = longest_with(pass.longest, pass.tail);
        return meet_rising(sheet, map, work, from, to, pass.tail, least, end);
    }
    if pass.tail {
        return to;
    }
    meet(sheet, map, work, from, to, test_of(r))
}

// The pass: the cases met that these tests join.
pub(crate) fn meet_rows(
    sheet: &[u8],
    map: SheetMap,
    tests: &[u8],
    pass: Pass,
    work: &mut [u8],
    from: usize,
) -> usize
    requires pass_asked { PassAsked sheet.now map tests.now pass.longest }
    requires begun { Begun sheet.now work.old from from }
    ensures { Meets sheet.now work.old from from (meet_tests sheet.now from pass.tail pass.longest tests.now) result work.new }
{
    let mut top = from;
    for &test in tests {
        top = meet_test(sheet, map, pass, usize::from(test), work, from, top);
    }
    top
}
