// One test met: a new case is written, and one that is there already is found.
// Rests on the search and on the arena's records; the record is the case's own, with a child that is not known yet.
ghost use Rattle.std.specs.Prelude.{◌≡◌};
ghost use Rattle.spec_accepted.specs.SheetFacts.{Laid};
ghost use Rattle.format_sheet.specs.Sections.{map_of};
ghost use Rattle.format_records.specs.Records.{kind_of, number_of, length_of};
ghost use Rattle.build_cases.specs.Fields.{Fit};
ghost use Rattle.build_cases.specs.SoFar.{Begun, meet_one, Meets};

use crate::search::{Fields, same_case};
use base_numbers::tree::CASES_MOST;
use build_arena::writing::put_case;
use format_records::reading::{Case, Test};
use format_sheet::SheetMap;

// The number of cases after this one is met, if it is new and there is room for it.
pub(crate) fn meet(
    sheet: &[u8],
    map: SheetMap,
    work: &mut [u8],
    from: usize,
    to: usize,
    test: Test,
) -> usize
    requires laid { Laid sheet.now × (map ≡ map_of sheet.now) × Fit sheet.now (kind_of test) (number_of test) (length_of test) }
    requires begun { Begun sheet.now work.old from to }
    ensures { Meets sheet.now work.old from to (meet_one sheet.now from test) result work.new }
{
    if to == CASES_MOST {
        return to;
    }
    if same_case(sheet, map.pool.start, work, from, to, Fields::from(test)) < to {
        return to;
    }
    put_case(work, to, Case { test, child: 0 });
    to + 1
}
