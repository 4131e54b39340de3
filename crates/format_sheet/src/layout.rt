// Refusals 2 to 5: the length of a sheet, where its sections start, and how many records each has.
// Only the trailer is read here.
ghost use Rattle.std.specs.Prelude.{◌≡◌, ◌<◌, ◌≤◌, length};
ghost use Rattle.spec_rules.specs.Limits.{sheet_trailer, sheet_starts};
ghost use Rattle.spec_rules.specs.SheetFile.{sheet_start, subject};
ghost use Rattle.spec_rules.specs.SheetRefusals.{length_fits, layout_fits};
ghost use Rattle.spec_accepted.specs.SheetFacts.{Laid};
ghost use Rattle.format_sheet.specs.Sections.{map_of, few_enough};

use crate::SheetMap;
use base_numbers::sheet::{
    CHILD_SIZE, CHILDREN_MOST, CLAUSE_SIZE, CLAUSES_MOST, CONSTRUCTOR_SIZE, CONSTRUCTORS_MOST,
    ENTRIES_MOST, ENTRY_SIZE, LENGTH_BACK, PATTERN_SIZE, PATTERNS_MOST, SHEET_MOST, SHEET_TRAILER,
    SUBJECT_BACK, TYPE_SIZE, TYPES_MOST,
};
use base_numbers::{BYTE_SIZE, WORD_SIZE, sheet_starts};
use base_words::word_at;
use format_parts::sections::{section_of, whole_records};

// 2: from 18 to 8,192 bytes, and the trailer's length is the sheet's.
#[tactic(auto, unfolding(spec_rules::specs::SheetRefusals::length_fits, spec_rules::specs::SheetFile::sheet_length))]
pub(crate) fn length_fits(sheet: &[u8]) -> bool
    ensures { result ≡ length_fits sheet.now }
{
    let n = sheet.len();
    SHEET_TRAILER <= n && n <= SHEET_MOST && word_at(sheet, n - LENGTH_BACK) as usize == n
}

// Start k of the trailer.
#[tactic(auto, unfolding(spec_rules::specs::SheetFile::sheet_start))]
fn start(sheet: &[u8], k: usize) -> usize
    requires { (sheet_trailer ≤ length sheet.now) × (k < sheet_starts) }
    ensures { result ≡ sheet_start sheet.now k }
{
    word_at(sheet, sheet.len() - SHEET_TRAILER + WORD_SIZE * k) as usize
}

// 3: the starts rise from 0, pass not the trailer, and cut no record.
#[tactic(auto, using(crate::specs::SectionsLaws::layout_read))]
pub(crate) fn layout_fits(sheet: &[u8]) -> bool
    requires { sheet_trailer ≤ length sheet.now }
    ensures { result ≡ layout_fits sheet.now }
{
    let types_at = start(sheet, sheet_starts::TYPES);
    let constructors_at = start(sheet, sheet_starts::CONSTRUCTORS);
    let entries_at = start(sheet, sheet_starts::ENTRIES);
    let patterns_at = start(sheet, sheet_starts::PATTERNS);
    let children_at = start(sheet, sheet_starts::CHILDREN);
    let clauses_at = start(sheet, sheet_starts::CLAUSES);
    let pool_at = start(sheet, sheet_starts::POOL);
    types_at == 0
        && whole_records(TYPE_SIZE, types_at, constructors_at)
        && whole_records(CONSTRUCTOR_SIZE, constructors_at, entries_at)
        && whole_records(ENTRY_SIZE, entries_at, patterns_at)
        && whole_records(PATTERN_SIZE, patterns_at, children_at)
        && whole_records(CHILD_SIZE, children_at, clauses_at)
        && whole_records(CLAUSE_SIZE, clauses_at, pool_at)
        && whole_records(BYTE_SIZE, pool_at, sheet.len() - SHEET_TRAILER)
}

// The subject's type number.
#[tactic(auto, unfolding(spec_rules::specs::SheetFile::subject))]
fn subject_of(sheet: &[u8]) -> usize
    requires { sheet_trailer ≤ length sheet.now }
    ensures { result ≡ subject sheet.now }
{
    word_at(sheet, sheet.len() - SUBJECT_BACK) as usize
}

// The sections of a sheet whose layout fits, and its subject.
pub(crate) fn map_of(sheet: &[u8]) -> SheetMap
    requires { Laid sheet.now }
    ensures { result ≡ map_of sheet.now }
{
    let types_at = start(sheet, sheet_starts::TYPES);
    let constructors_at = start(sheet, sheet_starts::CONSTRUCTORS);
    let entries_at = start(sheet, sheet_starts::ENTRIES);
    let patterns_at = start(sheet, sheet_starts::PATTERNS);
    let children_at = start(sheet, sheet_starts::CHILDREN);
    let clauses_at = start(sheet, sheet_starts::CLAUSES);
    let pool_at = start(sheet, sheet_starts::POOL);
    let types = section_of(types_at, constructors_at, TYPE_SIZE);
    let constructors = section_of(constructors_at, entries_at, CONSTRUCTOR_SIZE);
    let entries = section_of(entries_at, patterns_at, ENTRY_SIZE);
    let patterns = section_of(patterns_at, children_at, PATTERN_SIZE);
    let children = section_of(children_at, clauses_at, CHILD_SIZE);
    let clauses = section_of(clauses_at, pool_at, CLAUSE_SIZE);
    let pool = section_of(pool_at, sheet.len() - SHEET_TRAILER, BYTE_SIZE);
    let subject = subject_of(sheet);
    SheetMap {
        types,
        constructors,
        entries,
        patterns,
        children,
        clauses,
        pool,
        subject,
    }
}

// 5: no section has more records than it may.
#[tactic(auto, unfolding(crate::specs::Sections::few_enough))]
pub(crate) fn counts_fit(map: SheetMap) -> bool
    ensures { result ≡ few_enough map }
{
    map.types.count <= TYPES_MOST
        && map.constructors.count <= CONSTRUCTORS_MOST
        && map.entries.count <= ENTRIES_MOST
        && map.patterns.count <= PATTERNS_MOST
        && map.children.count <= CHILDREN_MOST
        && map.clauses.count <= CLAUSES_MOST
}
