// The thin reader that holds the file: a struct with the sheet's slice and its seven starts, and the few functions over it.
// Each takes the reader apart and calls a function on plain parameters; `clause_pattern`, above them, has plain parameters and
// asks nothing of its caller.
#![tactic(auto)]

mod places;

ghost use Rattle.std.specs.Prelude.{◌≡◌, ◌<◌, IfOk};
ghost use Rattle.spec_rules.specs.SheetFile.{patterns, clauses, root};
ghost use Rattle.spec_rules.specs.SheetRefusals.{verdict};
ghost use Rattle.spec_accepted.specs.SheetFacts.{Accepted};
ghost use Rattle.format_parts.specs.Refusals.{verdict_of};
ghost use Rattle.format_sheet.specs.Sections.{map_of};
ghost use Rattle.format_sheet.specs.Records.{pattern_of};
ghost use Rattle.format_sheet_reader.specs.Reading.{opened, Opened, clause_pattern_of};

use format_parts::refusals::Refusal;
use format_sheet::records::{PatternRecord, pattern_in};
use format_sheet::{SheetMap, check};
use places::root_in;

#[derive(Clone, Copy)]
pub struct Reader<'a> {
    pub sheet: &'a [u8],
    pub types: usize,
    pub constructors: usize,
    pub entries: usize,
    pub patterns: usize,
    pub children: usize,
    pub clauses: usize,
    pub pool: usize,
}

pub fn open<'a>(sheet: &'a [u8], map: SheetMap) -> Reader<'a>
    ensures { result ≡ opened sheet.entry map }
{
    Reader {
        sheet,
        types: map.types.start,
        constructors: map.constructors.start,
        entries: map.entries.start,
        patterns: map.patterns.start,
        children: map.children.start,
        clauses: map.clauses.start,
        pool: map.pool.start,
    }
}

pub fn pattern<'a>(r: Reader<'a>, p: usize) -> PatternRecord
    requires { Opened r × (p < patterns r.sheet.now) }
    ensures { result ≡ pattern_of r.entry.sheet.now p }
{
    pattern_in(r.sheet, r.patterns, p)
}

pub fn root<'a>(r: Reader<'a>, c: usize) -> usize
    requires { Opened r × (c < clauses r.sheet.now) }
    ensures { result ≡ root r.entry.sheet.now c }
{
    root_in(r.sheet, r.clauses, c)
}

// The root pattern's record of a clause that is there, read through a reader that lives for this call.
fn root_pattern(sheet: &[u8], map: SheetMap, c: usize) -> PatternRecord
    requires { Accepted sheet.now × (map ≡ map_of sheet.now) × (c < clauses sheet.now) }
    ensures { result ≡ pattern_of sheet.now (root sheet.now c) }
{
    let r = open(sheet, map);
    let p = root(r, c);
    pattern(r, p)
}

// The root pattern's record of clause c of any byte string, if it has such a clause. It asks nothing of its caller.
pub fn clause_pattern(sheet: &[u8], c: u16) -> Result<Option<PatternRecord>, Refusal>
    ensures verdict { verdict_of result ≡ verdict sheet.now }
    ensures clause { IfOk result (λ x. x ≡ clause_pattern_of sheet.now c) }
{
    let map = check(sheet)?;
    let n = usize::from(c);
    if n < map.clauses.count {
        Ok(Some(root_pattern(sheet, map, n)))
    } else {
        Ok(None)
    }
}
