// Rule 2: columns in order, as classes in a lent array up to a count, and the columns of a pattern put among others.
// Mapping a pattern calls mapping its children, which calls mapping a pattern; a child's number is above its parent's, so 192 less
// the pattern number falls. Columns are put last child first, since the union of rule 2 is taken from the right.
ghost use Rattle.std.specs.Prelude.{◌≡◌, [], ◌∷◌, ◌++◌, true, ◌+◌, ◌-◌, ◌<◌, ◌≤◌, length, take};
ghost use Rattle.std.proofs.Math.Seq.{slice};
ghost use Rattle.spec_rules.specs.Limits.{patterns_most};
ghost use Rattle.spec_rules.specs.SheetFile.{patterns};
ghost use Rattle.spec_rules.specs.SheetRefusals.{is_in};
ghost use Rattle.build_table.specs.Seen.{tests_of, tests_of_each, opened_tests};
ghost use Rattle.build_matrix.specs.Lists.{as_classes, Holds, Whole, first_place};
ghost use Rattle.build_matrix.specs.Ordered.{put_class, without_class};
ghost use Rattle.build_matrix.specs.Reading.{first_in};
ghost use Rattle.build_matrix.specs.Ready.{ReadyTable, Puts, put_tests, itself_or_inside, Gives};
ghost use Rattle.build_matrix.specs.Promises.{PatternAsked, ChildrenAsked, TestAsked};

use crate::Classes;
use base_numbers::pattern_kinds;
use base_numbers::sheet::PATTERNS_MOST;
use build_table::{CLASS, at, before, is_test};
use format_sheet::SheetMap;
use format_sheet::records::{child_at, pattern_at};

// No class.
pub(crate) fn empty() -> Classes
    ensures { Holds result [] }
{
    Classes {
        list: [0; PATTERNS_MOST],
        count: 0,
    }
}

// The class behind the others, so that there is one more.
pub(crate) fn push(list: &mut [u8; PATTERNS_MOST], count: usize, class: usize)
    requires { Whole (as_classes list.old count) × (count < patterns_most) × (class < patterns_most) }
    ensures { Holds (as_classes list.new (count + 1)) (take count list.old ++ class ∷ []) }
{
    list[count] = class as u8;
}

// The class at this place, the others before and behind it.
fn insert(list: &mut [u8; PATTERNS_MOST], count: usize, place: usize, class: usize) -> usize
    requires { Whole (as_classes list.old count) × (place ≤ count) × (count < patterns_most) × (class < patterns_most) }
    ensures { Holds (as_classes list.new result) (take place list.old ++ class ∷ slice place count list.old) }
{
    list.copy_within(place..count, place + 1);
    list[place] = class as u8;
    count + 1
}

// The classes of cs from one place up to another, behind those in the list.
fn put_part(
    list: &mut [u8; PATTERNS_MOST],
    count: usize,
    cs: &[u8; PATTERNS_MOST],
    from: usize,
    to: usize,
) -> usize
    requires whole { Whole (as_classes list.old count) × (length cs.now ≡ patterns_most) }
    requires from_le_to { (from ≤ to) × (to ≤ patterns_most) × (count + (to - from) ≤ patterns_most) }
    ensures { Holds (as_classes list.new result) (take count list.old ++ slice from to cs.now) }
{
    let end = count + (to - from);
    list[count..end].copy_from_slice(&cs[from..to]);
    end
}

// The first place of the class among the first n of cs, or n.
fn place_of(cs: &[u8; PATTERNS_MOST], n: usize, class: usize) -> usize
    requires { Whole (as_classes cs.now n) }
    ensures { result ≡ first_place class (take n cs.now) }
{
    cs[..n]
        .iter()
        .position(|c| usize::from(*c) == class)
        .unwrap_or(n)
}

// The first n of cs without the one tested, behind those in the list.
pub(crate) fn put_rest(
    list: &mut [u8; PATTERNS_MOST],
    count: usize,
    cs: &[u8; PATTERNS_MOST],
    n: usize,
    class: usize,
) -> usize
    requires { Whole (as_classes list.old count) × Whole (as_classes cs.now n) × (is_in class (take n cs.now) ≡ true) × (count + n ≤ patterns_most + 1) }
    ensures { Holds (as_classes list.new result) (take count list.old ++ without_class class (take n cs.now)) }
{
    let place = place_of(cs, n, class);
    let front = put_part(list, count, cs, 0, place);
    put_part(list, front, cs, place + 1, n)
}

// The class put into its place among sorted ones, once.
fn put(table: &[u8], list: &mut [u8; PATTERNS_MOST], count: usize, class: usize) -> usize
    requires { Puts table.now (as_classes list.old count) class }
    ensures { Holds (as_classes list.new result) (put_class (first_in table.now) class (take count list.old)) }
{
    for i in 0..count {
        let other = usize::from(list[i]);
        if other == class {
            return count;
        }
        if before(table, class, other) {
            return insert(list, count, i, class);
        }
    }
    insert(list, count, count, class)
}

// What a pattern gives to the columns of its row: nothing, its own class, or what its children give.
#[derive(Drop)]
enum Given {
    Nothing,
    Itself(usize),
    Inside { first: usize, count: usize },
}

fn itself_or_inside(test: bool, class: usize, first: usize, count: usize) -> Given
    ensures { result ≡ itself_or_inside test class first count }
{
    if test {
        Given::Itself(class)
    } else {
        Given::Inside { first, count }
    }
}

// One decision over kinds 0 to 9.
fn gives(sheet: &[u8], map: SheetMap, table: &[u8], p: usize) -> Given
    requires { ReadyTable sheet.now map table.now × (p < patterns sheet.now) }
    ensures { Gives sheet.now p result }
{
    let r = pattern_at(sheet, map, p);
    let class = at(table, CLASS + p);
    let kind = r.kind;
    match kind {
        pattern_kinds::DISCARD | pattern_kinds::VARIABLE => Given::Nothing,
        pattern_kinds::ASSIGN | pattern_kinds::PAIR | pattern_kinds::TUPLE => Given::Inside {
            first: r.first,
            count: r.count,
        },
        pattern_kinds::INTEGER
        | pattern_kinds::BYTE_STRING
        | pattern_kinds::LIST
        | pattern_kinds::LIST_WITH_TAIL => Given::Itself(class),
        pattern_kinds::CONSTRUCTOR => itself_or_inside(
            is_test(sheet, map, table, p),
            class,
            r.first,
            r.count,
        ),
        _ => Given::Nothing,
    }
}

// The columns of pattern p put among those in the list.
#[cycle(map_pattern_to_row_map_patterns_to_row)]
pub(crate) fn map_pattern_to_row(
    sheet: &[u8],
    map: SheetMap,
    table: &[u8],
    list: &mut [u8; PATTERNS_MOST],
    count: usize,
    p: usize,
) -> usize
    requires { PatternAsked sheet.now map table.now (as_classes list.old count) p }
    ensures { Holds (as_classes list.new result) (put_tests sheet.now (tests_of sheet.now p) (take count list.old)) }
{
    let given = gives(sheet, map, table, p);
    match given {
        Given::Nothing => count,
        Given::Itself(class) => put(table, list, count, class),
        Given::Inside { first, count: n } => {
            map_patterns_to_row(sheet, map, table, list, count, p, first, n)
        }
    }
}

// The same of n children of `parent` from entry j on, the last first.
#[cycle(map_pattern_to_row_map_patterns_to_row)]
fn map_patterns_to_row(
    sheet: &[u8],
    map: SheetMap,
    table: &[u8],
    list: &mut [u8; PATTERNS_MOST],
    count: usize,
    parent: usize,
    j: usize,
    n: usize,
) -> usize
    requires { ChildrenAsked sheet.now map table.now (as_classes list.old count) parent j n }
    ensures { Holds (as_classes list.new result) (put_tests sheet.now (tests_of_each sheet.now j n) (take count list.old)) }
{
    if n == 0 {
        return count;
    }
    let rest = map_patterns_to_row(sheet, map, table, list, count, parent, j + 1, n - 1);
    map_pattern_to_row(sheet, map, table, list, rest, child_at(sheet, map, j))
}

// The columns that test p opens to put among those in the list: those of its children, which a text has not.
pub(crate) fn open(
    sheet: &[u8],
    map: SheetMap,
    table: &[u8],
    list: &mut [u8; PATTERNS_MOST],
    count: usize,
    p: usize,
) -> usize
    requires { TestAsked sheet.now map table.now (as_classes list.old count) p }
    ensures { Holds (as_classes list.new result) (put_tests sheet.now (opened_tests sheet.now p) (take count list.old)) }
{
    let r = pattern_at(sheet, map, p);
    if r.kind < pattern_kinds::LIST {
        return count;
    }
    map_patterns_to_row(sheet, map, table, list, count, p, r.first, r.count)
}
