// The search for an equal case among those met so far. Texts are equal by their bytes in the sheet's pool.
// Rests on the arena's records of cases; the answer is the place of the first equal one.
ghost use Rattle.std.specs.Prelude.{◌≡◌, ◌-◌, ◌<◌, ◌≤◌, length};
ghost use Rattle.spec_rules.specs.SheetFile.{pool_at};
ghost use Rattle.spec_accepted.specs.SheetFacts.{Laid};
ghost use Rattle.build_arena.specs.Arena.{cases_most, arena_end};
ghost use Rattle.build_cases.specs.Fields.{Fit, fields_of, is_text, is_alike, has_test, first_where, Readable};

use base_numbers::case_kinds;
use build_arena::reading::{case_kind, case_length, case_number};
use format_records::reading::Test;

// A test by the fields of its case's record; the number of a text is its start in the pool.
#[derive(Clone, Copy)]
pub struct Fields {
    pub kind: u8,
    pub number: u16,
    pub len: u16,
}

impl Fields {
    // Whether its number is the start of a text.
    fn is_text(self) -> bool
        ensures { result ≡ is_text self.kind }
    {
        self.kind == case_kinds::INT || self.kind == case_kinds::BYTES
    }
}

impl From<Test> for Fields {
    ghost from_gives = { λ test fields. fields ≡ fields_of test };

    fn from(test: Test) -> Fields {
        match test {
            Test::Constr(number) => Fields {
                kind: case_kinds::CONSTR,
                number,
                len: 0,
            },
            Test::Text { kind, start, count } => Fields {
                kind,
                number: start,
                len: count,
            },
            Test::List(number) => Fields {
                kind: case_kinds::LIST,
                number,
                len: 0,
            },
            Test::Tailed(number) => Fields {
                kind: case_kinds::LIST_WITH_TAIL,
                number,
                len: 0,
            },
        }
    }
}

// Case i may have this test: it has its kind and length, and what is no text its number.
#[tactic(auto, unfolding(crate::specs::Fields::is_alike))]
fn is_alike(work: &[u8], i: usize, fields: Fields) -> bool
    requires { (arena_end ≤ length work.now) × (i < cases_most) }
    ensures { result ≡ is_alike work.now i fields.kind fields.number fields.len }
{
    case_kind(work, i) == fields.kind
        && case_length(work, i) == fields.len
        && (fields.is_text() || case_number(work, i) == fields.number)
}

// The first of the cases from `from` up to `to` with this test, or `to`. Nested loops that are left by a label with the index: the
// document names this form for the search.
pub(crate) fn same_case(
    sheet: &[u8],
    pool: usize,
    work: &[u8],
    from: usize,
    to: usize,
    fields: Fields,
) -> usize
    requires laid { Laid sheet.now × (pool ≡ pool_at sheet.now) × Fit sheet.now fields.kind fields.number fields.len }
    requires arena_end_in_bounds { (arena_end ≤ length work.now) × (from ≤ to) × (to ≤ cases_most) × Readable sheet.now work.now from to }
    ensures { result ≡ first_where (has_test sheet.now work.now fields.kind fields.number fields.len) from (to - from) }
{
    let start = pool + usize::from(fields.number);
    let len = usize::from(fields.len);
    let mut i = from;
    let at = 'cases: loop {
        if i == to {
            break to;
        }
        if is_alike(work, i, fields) {
            let other = pool + usize::from(case_number(work, i));
            let mut k: usize = 0;
            loop {
                if k == len {
                    break 'cases i;
                }
                if sheet[other + k] != sheet[start + k] {
                    break;
                }
                k += 1;
            }
        }
        i += 1;
    };
    at
}
