// The records of a sheet whose sections are laid out: each is read once, as a struct by value.
// Each reader asks that the map is the sheet's and that the record is there.
ghost use Rattle.std.specs.Prelude.{◌≡◌, ◌+◌, ◌<◌, ◌≤◌, length};
ghost use Rattle.spec_rules.specs.Limits.{type_size, constructor_size, pattern_size};
ghost use Rattle.spec_rules.specs.SheetFile.{types, constructors, entries, patterns, children, clauses, patterns_at, children_at, entry, child, root};
ghost use Rattle.spec_rules.specs.Patterns.{pattern_kind_of};
ghost use Rattle.spec_rules.specs.SheetRefusals.{has_children};
ghost use Rattle.spec_accepted.specs.SheetFacts.{Laid};
ghost use Rattle.format_sheet.specs.Sections.{map_of};
ghost use Rattle.format_sheet.specs.Records.{type_from, type_of, run_from, constructor_of, pattern_from, pattern_of, no_run};
ghost use Rattle.format_sheet.specs.Shape.{children_of};

use crate::SheetMap;
use base_numbers::sheet::{
    CHILD_SIZE, CLAUSE_SIZE, CONSTRUCTOR_SIZE, ENTRY_SIZE, PATTERN_SIZE, TYPE_SIZE,
};
use base_numbers::{pattern_kinds, record_fields, run_fields, type_fields};
use base_words::word_at;

#[derive(Clone, Copy)]
pub struct TypeRecord {
    pub kind: u8,
    pub flag: u8,
    pub first: usize,
    pub count: usize,
}

// `count` records of a section from `first` on: the fields of a constructor, the children of a pattern.
#[derive(Drop)]
pub struct Run {
    pub first: usize,
    pub count: usize,
}

#[derive(Clone, Copy)]
pub struct PatternRecord {
    pub kind: u8,
    pub zero: u8,
    pub a: usize,
    pub first: usize,
    pub count: usize,
}

fn type_from(sheet: &[u8], at: usize) -> TypeRecord
    requires { at + type_size ≤ length sheet.now }
    ensures { result ≡ type_from sheet.now at }
{
    let kind = sheet[at];
    let flag = sheet[at + type_fields::FLAG];
    let first = word_at(sheet, at + type_fields::FIRST) as usize;
    let count = word_at(sheet, at + type_fields::COUNT) as usize;
    TypeRecord {
        kind,
        flag,
        first,
        count,
    }
}

fn run_from(sheet: &[u8], at: usize) -> Run
    requires { at + constructor_size ≤ length sheet.now }
    ensures { result ≡ run_from sheet.now at }
{
    let first = word_at(sheet, at) as usize;
    let count = word_at(sheet, at + run_fields::COUNT) as usize;
    Run { first, count }
}

// The pattern whose record stands at a place of the slice.
pub fn pattern_from(sheet: &[u8], at: usize) -> PatternRecord
    requires { at + pattern_size ≤ length sheet.now }
    ensures { result ≡ pattern_from sheet.now at }
{
    let kind = sheet[at];
    let zero = sheet[at + record_fields::ZERO];
    let a = word_at(sheet, at + record_fields::A) as usize;
    let run = run_from(sheet, at + record_fields::RUN);
    PatternRecord {
        kind,
        zero,
        a,
        first: run.first,
        count: run.count,
    }
}

#[tactic(auto, unfolding(spec_rules::specs::SheetFile::type_kind, spec_rules::specs::SheetFile::type_flag, spec_rules::specs::SheetFile::type_first, spec_rules::specs::SheetFile::type_count))]
pub fn type_at(sheet: &[u8], map: SheetMap, t: usize) -> TypeRecord
    requires { Laid sheet.now × (map ≡ map_of sheet.now) × (t < types sheet.now) }
    ensures { result ≡ type_of sheet.now t }
{
    type_from(sheet, map.types.start + TYPE_SIZE * t)
}

#[tactic(auto, unfolding(spec_rules::specs::SheetFile::constructor_first, spec_rules::specs::SheetFile::constructor_count))]
pub fn constructor_at(sheet: &[u8], map: SheetMap, c: usize) -> Run
    requires { Laid sheet.now × (map ≡ map_of sheet.now) × (c < constructors sheet.now) }
    ensures { result ≡ constructor_of sheet.now c }
{
    run_from(sheet, map.constructors.start + CONSTRUCTOR_SIZE * c)
}

#[tactic(auto, unfolding(spec_rules::specs::SheetFile::entry))]
pub fn entry_at(sheet: &[u8], map: SheetMap, e: usize) -> usize
    requires { Laid sheet.now × (map ≡ map_of sheet.now) × (e < entries sheet.now) }
    ensures { result ≡ entry sheet.now e }
{
    word_at(sheet, map.entries.start + ENTRY_SIZE * e) as usize
}

// Pattern p, by the start of the patterns alone: a recursion that hands on no more of the map stores no more of it at each call.
#[tactic(auto, unfolding(spec_rules::specs::SheetFile::pattern_kind, spec_rules::specs::SheetFile::pattern_zero, spec_rules::specs::SheetFile::pattern_a, spec_rules::specs::SheetFile::pattern_first, spec_rules::specs::SheetFile::pattern_count))]
pub fn pattern_in(sheet: &[u8], start: usize, p: usize) -> PatternRecord
    requires { Laid sheet.now × (start ≡ patterns_at sheet.now) × (p < patterns sheet.now) }
    ensures { result ≡ pattern_of sheet.now p }
{
    pattern_from(sheet, start + PATTERN_SIZE * p)
}

pub fn pattern_at(sheet: &[u8], map: SheetMap, p: usize) -> PatternRecord
    requires { Laid sheet.now × (map ≡ map_of sheet.now) × (p < patterns sheet.now) }
    ensures { result ≡ pattern_of sheet.now p }
{
    pattern_in(sheet, map.patterns.start, p)
}

// Entry j of the child list, by its start alone.
#[tactic(auto, unfolding(spec_rules::specs::SheetFile::child))]
pub fn child_in(sheet: &[u8], start: usize, j: usize) -> usize
    requires { Laid sheet.now × (start ≡ children_at sheet.now) × (j < children sheet.now) }
    ensures { result ≡ child sheet.now j }
{
    word_at(sheet, start + CHILD_SIZE * j) as usize
}

pub fn child_at(sheet: &[u8], map: SheetMap, j: usize) -> usize
    requires { Laid sheet.now × (map ≡ map_of sheet.now) × (j < children sheet.now) }
    ensures { result ≡ child sheet.now j }
{
    child_in(sheet, map.children.start, j)
}

#[tactic(auto, unfolding(spec_rules::specs::SheetFile::root))]
pub fn root_at(sheet: &[u8], map: SheetMap, c: usize) -> usize
    requires { Laid sheet.now × (map ≡ map_of sheet.now) × (c < clauses sheet.now) }
    ensures { result ≡ root sheet.now c }
{
    word_at(sheet, map.clauses.start + CLAUSE_SIZE * c) as usize
}

// Unused fields are 0.
pub fn no_run(first: usize, count: usize) -> bool
    ensures { result ≡ no_run first count }
{
    first == 0 && count == 0
}

fn has_children(kind: u8) -> bool
    ensures { result ≡ has_children (pattern_kind_of kind) }
{
    kind == pattern_kinds::ASSIGN || (pattern_kinds::LIST <= kind && kind <= pattern_kinds::TUPLE)
}

// The children of pattern p, by the start of the patterns alone: none where its kind has none.
#[tactic(auto, unfolding(crate::specs::Shape::children_first, crate::specs::Shape::children_count))]
pub fn children_in(sheet: &[u8], start: usize, p: usize) -> Run
    requires { Laid sheet.now × (start ≡ patterns_at sheet.now) × (p < patterns sheet.now) }
    ensures { result ≡ children_of sheet.now p }
{
    let r = pattern_in(sheet, start, p);
    if has_children(r.kind) {
        Run {
            first: r.first,
            count: r.count,
        }
    } else {
        Run { first: 0, count: 0 }
    }
}

pub fn children_of(sheet: &[u8], map: SheetMap, p: usize) -> Run
    requires { Laid sheet.now × (map ≡ map_of sheet.now) × (p < patterns sheet.now) }
    ensures { result ≡ children_of sheet.now p }
{
    children_in(sheet, map.patterns.start, p)
}
