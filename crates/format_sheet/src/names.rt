// Refusal 11: a clause binds no name twice. The names of a clause are collected from left to right, in one buffer that is lent on
// with the number of names in it, and each is looked for among those after it.
ghost use Rattle.std.specs.Prelude.{◌≡◌, [], ◌∷◌, ◌+◌, ◌-◌, ◌<◌, ◌≤◌, length, get_or};
ghost use Rattle.base_words.specs.Words.{text_at};
ghost use Rattle.spec_rules.specs.Limits.{patterns_most};
ghost use Rattle.spec_rules.specs.SheetFile.{patterns, clauses, patterns_at, children_at};
ghost use Rattle.spec_rules.specs.SheetRefusals.{is_in, repeats as Repeats, name_twice, lowest_name_twice};
ghost use Rattle.spec_accepted.specs.SheetFacts.{Laid};
ghost use Rattle.format_sheet.specs.Sections.{map_of};
ghost use Rattle.spec_rules.specs.Found.{found};
ghost use Rattle.format_sheet.specs.Fitting.{ReadySheet};
ghost use Rattle.format_sheet.specs.Names.{own_name, names_in, in_buffer, held, Adds};

use crate::SheetMap;
use crate::records::{child_in, children_in, pattern_in, root_at};
use base_numbers::pattern_kinds;
use base_numbers::sheet::PATTERNS_MOST;

// One name more.
fn add(found: &mut [u16], count: usize, x: u16) -> usize
    requires { (length found.old ≡ patterns_most) × (count < patterns_most) }
    ensures { Adds (in_buffer found.old count) (x ∷ []) (in_buffer found.new result) }
{
    found[count] = x;
    count + 1
}

// The name of pattern p itself, if it has one.
fn add_own(sheet: &[u8], records: usize, p: usize, found: &mut [u16], count: usize) -> usize
    requires laid { Laid sheet.now × (records ≡ patterns_at sheet.now) × (p < patterns sheet.now) }
    requires found_len { (length found.old ≡ patterns_most) × (count + length (own_name sheet.now p) ≤ patterns_most) }
    ensures { Adds (in_buffer found.old count) (own_name sheet.now p) (in_buffer found.new result) }
{
    let r = pattern_in(sheet, records, p);
    let kind = r.kind;
    match kind {
        pattern_kinds::VARIABLE => add(found, count, r.a as u16),
        pattern_kinds::ASSIGN => add(found, count, r.a as u16),
        _ => count,
    }
}

// The names of pattern p and of what is inside it. Of the map it takes the starts of the patterns and of the child list.
fn collect(
    sheet: &[u8],
    records: usize,
    list: usize,
    p: usize,
    found: &mut [u16],
    count: usize,
) -> usize
    requires ready_sheet { ReadySheet sheet.now (map_of sheet.now) × (records ≡ patterns_at sheet.now) × (list ≡ children_at sheet.now) × (p < patterns sheet.now) }
    requires found_len { (length found.old ≡ patterns_most) × (count + length (names_in sheet.now p) ≤ patterns_most) }
    ensures { Adds (in_buffer found.old count) (names_in sheet.now p) (in_buffer found.new result) }
{
    let mut next = add_own(sheet, records, p, found, count);
    let run = children_in(sheet, records, p);
    for k in 0..run.count {
        next = collect(
            sheet,
            records,
            list,
            child_in(sheet, list, run.first + k),
            found,
            next,
        );
    }
    next
}

// The name at i is among those after it.
fn again(found: &[u16], count: usize, i: usize) -> bool
    requires { (length found.now ≡ patterns_most) × (count ≤ patterns_most) × (i < count) }
    ensures { result ≡ is_in (get_or found.now i 0) (text_at found.now (i + 1) (count - (i + 1))) }
{
    found[i + 1..count].contains(&found[i])
}

// A name stands again among those after it. A loop: `repeats` of the rules falls by the head of the list, and `any` has no law over a range.
fn repeats(found: &[u16], count: usize) -> bool
    requires { (length found.now ≡ patterns_most) × (count ≤ patterns_most) }
    ensures { result ≡ Repeats (held (in_buffer found.now count)) }
{
    for i in 0..count {
        if again(found, count, i) {
            return true;
        }
    }
    false
}

// What the buffer holds before does not matter.
fn name_twice(sheet: &[u8], map: SheetMap, c: usize, found: &mut [u16]) -> bool
    requires { ReadySheet sheet.now map × (c < clauses sheet.now) × (length found.old ≡ patterns_most) }
    ensures { result ≡ name_twice sheet.now c }
{
    let count = collect(
        sheet,
        map.patterns.start,
        map.children.start,
        root_at(sheet, map, c),
        found,
        0,
    );
    repeats(found, count)
}

// 11.
pub(crate) fn lowest_name_twice(sheet: &[u8], map: SheetMap) -> Option<u16>
    requires { ReadySheet sheet.now map }
    ensures { result ≡ found (lowest_name_twice sheet.now) }
{
    let mut found = [0u16; PATTERNS_MOST];
    // A loop: the laws of `find` are for a closure that stays as it was, and this one would write the buffer.
    for c in 0..map.clauses.count {
        if name_twice(sheet, map, c, &mut found) {
            return Some(c as u16);
        }
    }
    None
}
