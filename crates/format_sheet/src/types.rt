// Refusals 6 and 7: types, constructors, type entries and the subject keep 01's rules, and no type is transparent.
ghost use Rattle.std.specs.Prelude.{◌≡◌, ◌<◌};
ghost use Rattle.spec_rules.specs.Searching.{every};
ghost use Rattle.spec_rules.specs.SheetFile.{types, constructors, entries};
ghost use Rattle.spec_rules.specs.SheetRefusals.{type_keeps_rules, constructor_keeps_rules, entry_keeps_rules, types_fit, transparent as Transparent, lowest_transparent};
ghost use Rattle.spec_accepted.specs.SheetFacts.{Laid, Counted, Typed};
ghost use Rattle.format_sheet.specs.Sections.{map_of};
ghost use Rattle.format_sheet.specs.Types.{parts_fit, flags_fit};
ghost use Rattle.spec_rules.specs.Found.{found};

use crate::SheetMap;
use crate::records::{TypeRecord, constructor_at, entry_at, no_run, type_at};
use base_numbers::sheet::{
    DATA_CONSTRUCTORS_LEAST, LIST_ENTRIES, PAIR_ENTRIES, TUPLE_ENTRIES_LEAST,
};
use base_numbers::{type_flags, type_kinds};
use format_parts::sections::run_in;

// First and count of a type, by its kind.
#[tactic(auto, unfolding(crate::specs::Types::parts_fit))]
fn parts_fit(r: TypeRecord, entries: usize, constructors: usize) -> bool
    ensures { result ≡ parts_fit r entries constructors }
{
    let kind = r.kind;
    match kind {
        type_kinds::INT | type_kinds::BYTES => no_run(r.first, r.count),
        type_kinds::LIST => r.count == LIST_ENTRIES && run_in(r.first, r.count, entries),
        type_kinds::PAIR => r.count == PAIR_ENTRIES && run_in(r.first, r.count, entries),
        type_kinds::TUPLE => TUPLE_ENTRIES_LEAST <= r.count && run_in(r.first, r.count, entries),
        type_kinds::DATA => {
            DATA_CONSTRUCTORS_LEAST <= r.count && run_in(r.first, r.count, constructors)
        }
        _ => false,
    }
}

// Flags stand on Data alone.
#[tactic(auto, unfolding(crate::specs::Types::flags_fit))]
fn flags_fit(kind: u8, flag: u8) -> bool
    ensures { result ≡ flags_fit kind flag }
{
    flag == type_flags::NONE || (kind == type_kinds::DATA && flag <= type_flags::OPAQUE_DECORATED)
}

#[tactic(auto, unfolding(spec_rules::specs::SheetRefusals::type_keeps_rules, spec_rules::specs::SheetRefusals::type_parts, spec_rules::specs::SheetRefusals::type_flags, crate::specs::Types::parts_fit, crate::specs::Types::flags_fit))]
fn type_keeps_rules(sheet: &[u8], map: SheetMap, t: usize) -> bool
    requires { Laid sheet.now × (map ≡ map_of sheet.now) × (t < types sheet.now) }
    ensures { result ≡ type_keeps_rules sheet.now t }
{
    let r = type_at(sheet, map, t);
    parts_fit(r, map.entries.count, map.constructors.count) && flags_fit(r.kind, r.flag)
}

#[tactic(auto, unfolding(spec_rules::specs::SheetRefusals::constructor_keeps_rules))]
fn constructor_keeps_rules(sheet: &[u8], map: SheetMap, c: usize) -> bool
    requires { Laid sheet.now × (map ≡ map_of sheet.now) × (c < constructors sheet.now) }
    ensures { result ≡ constructor_keeps_rules sheet.now c }
{
    let r = constructor_at(sheet, map, c);
    run_in(r.first, r.count, map.entries.count)
}

#[tactic(auto, unfolding(spec_rules::specs::SheetRefusals::entry_keeps_rules))]
fn entry_keeps_rules(sheet: &[u8], map: SheetMap, e: usize) -> bool
    requires { Laid sheet.now × (map ≡ map_of sheet.now) × (e < entries sheet.now) }
    ensures { result ≡ entry_keeps_rules sheet.now e }
{
    entry_at(sheet, map, e) < map.types.count
}

fn types_keep_rules(sheet: &[u8], map: SheetMap) -> bool
    requires { Laid sheet.now × (map ≡ map_of sheet.now) }
    ensures { result ≡ every (type_keeps_rules sheet.now) 0 (types sheet.now) }
{
    (0..map.types.count).all(|t| type_keeps_rules(sheet, map, t))
}

fn constructors_keep_rules(sheet: &[u8], map: SheetMap) -> bool
    requires { Laid sheet.now × (map ≡ map_of sheet.now) }
    ensures { result ≡ every (constructor_keeps_rules sheet.now) 0 (constructors sheet.now) }
{
    (0..map.constructors.count).all(|c| constructor_keeps_rules(sheet, map, c))
}

fn entries_keep_rules(sheet: &[u8], map: SheetMap) -> bool
    requires { Laid sheet.now × (map ≡ map_of sheet.now) }
    ensures { result ≡ every (entry_keeps_rules sheet.now) 0 (entries sheet.now) }
{
    (0..map.entries.count).all(|e| entry_keeps_rules(sheet, map, e))
}

// 6.
#[tactic(auto, unfolding(spec_rules::specs::SheetRefusals::types_fit))]
pub(crate) fn types_fit(sheet: &[u8], map: SheetMap) -> bool
    requires { Laid sheet.now × (map ≡ map_of sheet.now) }
    ensures { result ≡ types_fit sheet.now }
{
    types_keep_rules(sheet, map)
        && constructors_keep_rules(sheet, map)
        && entries_keep_rules(sheet, map)
        && map.subject < map.types.count
}

// Data, opaque flag 1 only, one constructor with one field.
#[tactic(auto, unfolding(spec_rules::specs::SheetRefusals::transparent))]
fn transparent(sheet: &[u8], map: SheetMap, t: usize) -> bool
    requires { Laid sheet.now × Typed sheet.now × (map ≡ map_of sheet.now) × (t < types sheet.now) }
    ensures { result ≡ Transparent sheet.now t }
{
    let r = type_at(sheet, map, t);
    r.kind == type_kinds::DATA
        && r.flag == type_flags::OPAQUE
        && r.count == 1
        && constructor_at(sheet, map, r.first).count == 1
}

// 7.
pub(crate) fn lowest_transparent(sheet: &[u8], map: SheetMap) -> Option<u16>
    requires { Laid sheet.now × Counted sheet.now × Typed sheet.now × (map ≡ map_of sheet.now) }
    ensures { result ≡ found (lowest_transparent sheet.now) }
{
    (0..map.types.count)
        .find(|&t| transparent(sheet, map, t))
        .map(|t| t as u16)
}
