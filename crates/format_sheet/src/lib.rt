// The check of a sheet: refusals 2 to 11 of document 01, over a plain slice. It answers the refusal with its number and place, or
// where each section starts and how many records it has; every crate that reads a checked sheet asks for that map.
//
// Cost: every record and entry is read a fixed number of times, and the whole is linear in the sheet but for what 01 implies: texts
// may overlap in the pool, so that a byte is read once for each integer that has it (at most 192, of at most 64 bytes each), and
// each name of a clause is looked for among those after it. What 01 asks of each pattern and each entry (refusal 8) is counted in a
// buffer, not searched for; that buffer and the one for the names of a clause are lent on, so that nothing is copied for a pattern,
// an entry or a name. Calls go at most 12 levels deep for the depth, and at most one level for each pattern and each entry in
// fitting, where 192 less the pattern number falls.
#![tactic(auto)]

mod fitting;
mod layout;
mod names;
pub mod records;
mod shape;
mod standing;
mod texts;
mod types;

ghost use Rattle.std.specs.Prelude.{◌≡◌, IfOk};
ghost use Rattle.spec_rules.specs.SheetRefusals.{verdict};
ghost use Rattle.format_parts.specs.Refusals.{verdict_of};
ghost use Rattle.format_sheet.specs.Sections.{map_of};

use fitting::lowest_misfit;
use format_parts::refusals::{Reason, Refusal, require, require_none};
use format_parts::sections::Section;
use layout::{counts_fit, layout_fits, length_fits, map_of};
use names::lowest_name_twice;
use shape::shape_fits;
use texts::lowest_bad_text;
use types::{lowest_transparent, types_fit};

// Where the sections of a sheet stand, and the subject's type number.
#[derive(Clone, Copy)]
pub struct SheetMap {
    pub types: Section,
    pub constructors: Section,
    pub entries: Section,
    pub patterns: Section,
    pub children: Section,
    pub clauses: Section,
    pub pool: Section,
    pub subject: usize,
}

// 01's refusals 2 to 11, in their order. It asks nothing of its caller.
pub fn check(sheet: &[u8]) -> Result<SheetMap, Refusal>
    ensures verdict { verdict_of result ≡ verdict sheet.now }
    ensures map { IfOk result (λ m. m ≡ map_of sheet.now) }
{
    require(length_fits(sheet), Reason::Length)?;
    require(layout_fits(sheet), Reason::Layout)?;
    let map = map_of(sheet);
    require(0 < map.clauses.count, Reason::NoClause)?;
    require(counts_fit(map), Reason::Count)?;
    require(types_fit(sheet, map), Reason::Types)?;
    require_none(lowest_transparent(sheet, map), Reason::Transparent)?;
    require(shape_fits(sheet, map), Reason::Shape)?;
    require_none(lowest_bad_text(sheet, map), Reason::Text)?;
    require_none(lowest_misfit(sheet, map), Reason::Misfit)?;
    require_none(lowest_name_twice(sheet, map), Reason::NameTwice)?;
    Ok(map)
}
