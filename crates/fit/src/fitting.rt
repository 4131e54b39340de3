// Refusal 25: a panel fits the subject type of a sheet. Fitting a record fits its parts; a type may contain itself, and it ends because
// a part's record has a larger number than its owner.
ghost use Rattle.std.specs.Prelude.{◌≡◌, ◌<◌};
ghost use Rattle.spec_rules.specs.Limits.{records_most};
ghost use Rattle.spec_rules.specs.SheetFile.{types, subject};
ghost use Rattle.spec_rules.specs.PanelFile.{records};
ghost use Rattle.spec_rules.specs.Fitting.{parts_fit, has_type_to, panel_fits};
ghost use Rattle.fit.specs.Fit.{list_below, parts_below, fields_below, below, ReadyToFit, Run, Typing};

use base_numbers::{record_kinds, type_kinds};
use format_panel::PanelMap;
use format_panel::records::{Record, part_at, record_at};
use format_sheet::SheetMap;
use format_sheet::records::{TypeRecord, constructor_at, entry_at, type_at};

// What is left to fit of a record and a type: nothing, or the record's parts, each to the type at its own entry.
#[derive(Drop)]
pub enum Below {
    Alone(bool),
    Parts {
        first: usize,
        count: usize,
        entry: usize,
        step: usize,
    },
}

// The elements of a list are all of the type at the list type's one entry.
fn list_below(x: Record, y: TypeRecord) -> Below
    ensures { result ≡ list_below x y }
{
    if y.kind != type_kinds::LIST {
        return Below::Alone(false);
    }
    Below::Parts {
        first: x.first,
        count: x.count,
        entry: y.first,
        step: 0,
    }
}

// A pair and a tuple have as many parts as their type has entries.
fn parts_below(x: Record, y: TypeRecord, kind: u8) -> Below
    ensures { result ≡ parts_below x y kind }
{
    if y.kind != kind || y.count != x.count {
        return Below::Alone(false);
    }
    Below::Parts {
        first: x.first,
        count: x.count,
        entry: y.first,
        step: 1,
    }
}

// A constructor is one of its type's, and has as many parts as that has fields.
fn fields_below(sheet: &[u8], map: SheetMap, x: Record, y: TypeRecord) -> Below
    requires { Typing sheet.now map y }
    ensures { result ≡ fields_below sheet.now x y }
{
    if y.kind != type_kinds::DATA || y.count <= x.a {
        return Below::Alone(false);
    }
    let c = constructor_at(sheet, map, y.first + x.a);
    if c.count != x.count {
        return Below::Alone(false);
    }
    Below::Parts {
        first: x.first,
        count: x.count,
        entry: c.first,
        step: 1,
    }
}

// Record r and type t agree in kind and count, and what is left.
#[tactic(auto, using(crate::specs::FitLaws::below_read), unfolding(crate::specs::Fit::below_of_kind, spec_rules::specs::PanelFile::record_kind_of))]
fn below_record(
    sheet: &[u8],
    map: SheetMap,
    panel: &[u8],
    places: PanelMap,
    r: usize,
    t: usize,
) -> Below
    requires { ReadyToFit sheet.now map panel.now places × (r < records panel.now) × (t < types sheet.now) }
    ensures { result ≡ below sheet.now panel.now r t }
{
    let x = record_at(panel, r);
    let y = type_at(sheet, map, t);
    match x.kind {
        record_kinds::INTEGER => Below::Alone(y.kind == type_kinds::INT),
        record_kinds::BYTES => Below::Alone(y.kind == type_kinds::BYTES),
        record_kinds::LIST => list_below(x, y),
        record_kinds::PAIR => parts_below(x, y, type_kinds::PAIR),
        record_kinds::TUPLE => parts_below(x, y, type_kinds::TUPLE),
        record_kinds::CONSTRUCTOR => fields_below(sheet, map, x, y),
        _ => Below::Alone(false),
    }
}

// Record r is of type t: so are its parts, each of the type at its own entry, the first at `entry`, each next one `step` further on.
fn record_fits(
    sheet: &[u8],
    map: SheetMap,
    panel: &[u8],
    places: PanelMap,
    r: usize,
    t: usize,
) -> bool
    requires { ReadyToFit sheet.now map panel.now places × (r < records panel.now) × (t < types sheet.now) }
    ensures { result ≡ has_type_to records_most sheet.now panel.now r t }
{
    match below_record(sheet, map, panel, places, r, t) {
        Below::Alone(fits) => fits,
        Below::Parts {
            first,
            count,
            entry,
            step,
        } => {
            // A `for` and no `all`: the type entry goes on beside the part.
            let mut e = entry;
            for k in 0..count {
                let part = part_at(panel, places, first + k);
                let of = entry_at(sheet, map, e);
                if !record_fits(sheet, map, panel, places, part, of) {
                    return false;
                }
                e += step;
            }
            true
        }
    }
}

// 25: the root is of the subject's type.
pub(crate) fn fits(sheet: &[u8], map: SheetMap, panel: &[u8], places: PanelMap) -> bool
    requires { ReadyToFit sheet.now map panel.now places }
    ensures { result ≡ panel_fits sheet.now panel.now }
{
    record_fits(sheet, map, panel, places, 0, map.subject)
}
