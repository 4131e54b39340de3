// Refusal 10: a pattern fits its type, argument counts included. Fitting a pattern calls fitting its children, which calls fitting
// a pattern; a child's number is above its parent's, so 192 less the pattern number falls.
ghost use Rattle.std.specs.Prelude.{◌≡◌, ◌+◌, ◌<◌, ◌≤◌, eqb};
ghost use Rattle.base_words.specs.Words.{both};
ghost use Rattle.spec_rules.specs.Kinds.{data_type};
ghost use Rattle.spec_rules.specs.SheetFile.{types, constructors, patterns, clauses, pattern_kind};
ghost use Rattle.spec_rules.specs.Patterns.{pattern_kind_of, pattern, along, fits as Fits, fit_all};
ghost use Rattle.spec_rules.specs.SheetRefusals.{misfit, lowest_misfit};
ghost use Rattle.spec_accepted.specs.SheetFacts.{Laid};
ghost use Rattle.format_sheet.specs.Sections.{map_of};
ghost use Rattle.spec_rules.specs.Found.{found};
ghost use Rattle.format_sheet.specs.Fitting.{ReadySheet, Room, asks_for, arguments_fit, asked};

use crate::SheetMap;
use crate::records::{
    PatternRecord, TypeRecord, child_at, constructor_at, entry_at, pattern_at, root_at, type_at,
};
use base_numbers::{pattern_kinds, type_kinds};

// What is left to ask of a pattern whose own kind and count were held against its type: nothing, it fits or does not; that the
// one pattern inside it fits the same type; or that each of `count` children from entry `first` on fits the type at its own type
// entry, the first at `entry`, each next one `step` further on.
#[derive(Drop)]
enum Question {
    Settled(bool),
    Inside(usize),
    Each {
        first: usize,
        count: usize,
        entry: usize,
        step: usize,
    },
}

fn asks_each(fit: bool, first: usize, count: usize, entry: usize, step: usize) -> Question
    ensures { result ≡ asks_for fit first count entry step }
{
    if fit {
        Question::Each {
            first,
            count,
            entry,
            step,
        }
    } else {
        Question::Settled(false)
    }
}

// Of a pair or a tuple: the type has that kind and as many parts.
fn asks_parts(r: PatternRecord, ty: TypeRecord, kind: u8) -> Question
    ensures { result ≡ asks_for (both (eqb ty.kind kind) (eqb ty.count r.count)) r.first r.count ty.first 1 }
{
    if ty.kind != kind {
        return Question::Settled(false);
    }
    asks_each(ty.count == r.count, r.first, r.count, ty.first, 1)
}

// Of a constructor: the type has it, with as many fields.
fn asks_fields(sheet: &[u8], map: SheetMap, r: PatternRecord, ty: TypeRecord) -> Question
    requires { Laid sheet.now × (map ≡ map_of sheet.now) × (ty.kind ≡ data_type → ty.first + ty.count ≤ constructors sheet.now) }
    ensures { result ≡ arguments_fit sheet.now r ty }
{
    if ty.kind != type_kinds::DATA {
        return Question::Settled(false);
    }
    if ty.count <= r.a {
        return Question::Settled(false);
    }
    let c = constructor_at(sheet, map, ty.first + r.a);
    asks_each(c.count == r.count, r.first, r.count, c.first, 1)
}

// The pattern p held against type t.
fn asks(sheet: &[u8], map: SheetMap, p: usize, t: usize) -> Question
    requires { ReadySheet sheet.now map × (p < patterns sheet.now) × (t < types sheet.now) }
    ensures { result ≡ asked sheet.now p t (pattern_kind_of (pattern_kind sheet.now p)) }
{
    let r = pattern_at(sheet, map, p);
    let ty = type_at(sheet, map, t);
    let kind = r.kind;
    match kind {
        pattern_kinds::DISCARD => Question::Settled(true),
        pattern_kinds::VARIABLE => Question::Settled(true),
        pattern_kinds::ASSIGN => Question::Inside(child_at(sheet, map, r.first)),
        pattern_kinds::INTEGER => Question::Settled(ty.kind == type_kinds::INT),
        pattern_kinds::BYTE_STRING => Question::Settled(ty.kind == type_kinds::BYTES),
        pattern_kinds::LIST => asks_each(
            ty.kind == type_kinds::LIST,
            r.first,
            r.count,
            ty.first,
            0,
        ),
        pattern_kinds::LIST_WITH_TAIL => asks_each(
            ty.kind == type_kinds::LIST,
            r.first,
            r.count - 1,
            ty.first,
            0,
        ),
        pattern_kinds::CONSTRUCTOR => asks_fields(sheet, map, r, ty),
        pattern_kinds::PAIR => asks_parts(r, ty, type_kinds::PAIR),
        pattern_kinds::TUPLE => asks_parts(r, ty, type_kinds::TUPLE),
        _ => Question::Settled(true),
    }
}

// Pattern p fits type t.
#[cycle(fits_fits_all)]
fn fits(sheet: &[u8], map: SheetMap, p: usize, t: usize) -> bool
    requires { ReadySheet sheet.now map × (p < patterns sheet.now) × (t < types sheet.now) }
    ensures { result ≡ Fits (pattern sheet.now p t) sheet.now }
{
    let left = asks(sheet, map, p, t);
    match left {
        Question::Settled(fit) => fit,
        Question::Inside(q) => fits(sheet, map, q, t),
        Question::Each {
            first,
            count,
            entry,
            step,
        } => fits_all(sheet, map, p, first, count, entry, step),
    }
}

// Each of n children of `parent` from entry j on fits the type at its own type entry, the first at e.
#[cycle(fits_fits_all)]
fn fits_all(
    sheet: &[u8],
    map: SheetMap,
    parent: usize,
    j: usize,
    n: usize,
    e: usize,
    step: usize,
) -> bool
    requires { ReadySheet sheet.now map × Room sheet.now parent j n e step }
    ensures { result ≡ fit_all (along (pattern sheet.now) sheet.now j n e step) sheet.now }
{
    if n == 0 {
        return true;
    }
    if !fits(sheet, map, child_at(sheet, map, j), entry_at(sheet, map, e)) {
        return false;
    }
    fits_all(sheet, map, parent, j + 1, n - 1, e + step, step)
}

// The pattern of clause c does not fit the subject's type.
fn misfits(sheet: &[u8], map: SheetMap, c: usize) -> bool
    requires { ReadySheet sheet.now map × (c < clauses sheet.now) }
    ensures { result ≡ misfit sheet.now c }
{
    !fits(sheet, map, root_at(sheet, map, c), map.subject)
}

// 10.
pub(crate) fn lowest_misfit(sheet: &[u8], map: SheetMap) -> Option<u16>
    requires { ReadySheet sheet.now map }
    ensures { result ≡ found (lowest_misfit sheet.now) }
{
    (0..map.clauses.count)
        .find(|&c| misfits(sheet, map, c))
        .map(|c| c as u16)
}
