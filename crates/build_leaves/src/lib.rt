// A leaf's bindings put into the arena: those of its clause's root, then what each column tested opened in the clause's row.
// A binding is the number of its pattern; it is stored as its name and the class of its path, which the table has.
#![tactic(auto)]

ghost use Rattle.std.specs.Prelude.{◌≡◌, ◌<◌, get_or, take};
ghost use Rattle.spec_rules.specs.Limits.{patterns_most};
ghost use Rattle.spec_rules.specs.SheetFile.{patterns_at, children_at, patterns, clauses, root};
ghost use Rattle.spec_accepted.specs.SheetFacts.{Accepted};
ghost use Rattle.build_table.specs.Seen.{binds_of, binds_of_each};
ghost use Rattle.build_table.specs.Tabled.{Tabled};
ghost use Rattle.build_matrix.specs.Live.{opened_test};
ghost use Rattle.build_matrix.specs.Bound.{numbers_held, leaf_numbers};
ghost use Rattle.build_matrix.specs.Ready.{ReadyTable};
ghost use Rattle.build_leaves.specs.Bindings.{bound, bound_one, own_of, Room, Started, Entries, Parts, Gives, LeafAsked};
ghost use Rattle.build_leaves.specs.Promises.{Binds};

use base_numbers::pattern_kinds;
use base_numbers::sheet::PATTERNS_MOST;
use base_numbers::tree::BINDINGS_MOST;
use build_arena::writing;
use build_table::{CELL, CLASS, OWNER, at};
use format_sheet::SheetMap;
use format_sheet::records::{child_in, children_of, pattern_in, root_at};

// The binding of pattern p, behind the `top` bindings there are.
// Past the room only the number goes on, to one more than the room, and is no Option: what leaf_bindings promises counts so.
fn put_binding(
    sheet: &[u8],
    records: usize,
    table: &[u8],
    p: usize,
    work: &mut [u8],
    top: usize,
) -> usize
    requires { Accepted sheet.now × Tabled sheet.now table.now × (records ≡ patterns_at sheet.now) × (p < patterns sheet.now) × Room work.old top }
    ensures { bound work.new result ≡ bound_one sheet.now (bound work.old top) p }
{
    if top >= BINDINGS_MOST {
        return BINDINGS_MOST + 1;
    }
    let r = pattern_in(sheet, records, p);
    let class = at(table, CLASS + p);
    writing::put_binding(work, top, r.a as u16, class as u16);
    top + 1
}

// What a pattern gives to its row's bindings: its own name, if it has one, and what its `count` children from entry `first` on give.
#[derive(Drop)]
struct Given {
    named: bool,
    first: usize,
    count: usize,
}

// What a constructor, pair or tuple gives: what its children give, but a test nothing until it is opened. A test is what its children
// are inside of.
fn parts_given(
    sheet: &[u8],
    list: usize,
    table: &[u8],
    p: usize,
    first: usize,
    count: usize,
) -> Given
    requires { Accepted sheet.now × Tabled sheet.now table.now × (list ≡ children_at sheet.now) × Parts sheet.now p first count }
    ensures { Gives sheet.now p result }
{
    let nothing = Given {
        named: false,
        first: 0,
        count: 0,
    };
    if count == 0 || at(table, OWNER + child_in(sheet, list, first)) == p + 1 {
        return nothing;
    }
    Given {
        named: false,
        first,
        count,
    }
}

// One decision over kinds 0 to 9.
fn gives(sheet: &[u8], records: usize, list: usize, table: &[u8], p: usize) -> Given
    requires { Started sheet.now table.now records list × (p < patterns sheet.now) }
    ensures { Gives sheet.now p result }
{
    let r = pattern_in(sheet, records, p);
    match r.kind {
        pattern_kinds::VARIABLE => Given {
            named: true,
            first: 0,
            count: 0,
        },
        pattern_kinds::ASSIGN => Given {
            named: true,
            first: r.first,
            count: r.count,
        },
        pattern_kinds::CONSTRUCTOR | pattern_kinds::PAIR | pattern_kinds::TUPLE => parts_given(
            sheet, list, table, p, r.first, r.count,
        ),
        _ => Given {
            named: false,
            first: 0,
            count: 0,
        },
    }
}

// Pattern p's own binding, if it is named.
fn put_own(
    sheet: &[u8],
    records: usize,
    table: &[u8],
    p: usize,
    named: bool,
    work: &mut [u8],
    top: usize,
) -> usize
    requires { Accepted sheet.now × Tabled sheet.now table.now × (records ≡ patterns_at sheet.now) × (p < patterns sheet.now) × Room work.old top }
    ensures { Binds sheet.now work.old work.new top (own_of named p) result }
{
    if named {
        return put_binding(sheet, records, table, p, work, top);
    }
    top
}

// The bindings of pattern p: its own, then those of its children.
#[cycle(put_all_bindings_put_bindings)]
fn put_bindings(
    sheet: &[u8],
    records: usize,
    list: usize,
    table: &[u8],
    p: usize,
    work: &mut [u8],
    top: usize,
) -> usize
    requires { Started sheet.now table.now records list × (p < patterns sheet.now) × Room work.old top }
    ensures { Binds sheet.now work.old work.new top (binds_of sheet.now p) result }
{
    let g = gives(sheet, records, list, table, p);
    let next = put_own(sheet, records, table, p, g.named, work, top);
    if g.count == 0 {
        return next;
    }
    put_all_bindings(sheet, records, list, table, p, g.first, g.count, work, next)
}

// The bindings of n children of `parent` from entry j on. A child has a larger number than its parent, so that the two functions end.
#[cycle(put_all_bindings_put_bindings)]
fn put_all_bindings(
    sheet: &[u8],
    records: usize,
    list: usize,
    table: &[u8],
    parent: usize,
    j: usize,
    n: usize,
    work: &mut [u8],
    top: usize,
) -> usize
    requires { Started sheet.now table.now records list × Entries sheet.now parent j n × Room work.old top }
    ensures { Binds sheet.now work.old work.new top (binds_of_each sheet.now j n) result }
{
    let mut next = top;
    for k in 0..n {
        let q = child_in(sheet, list, j + k);
        next = put_bindings(sheet, records, list, table, q, work, next);
    }
    next
}

// The bindings of clause c's root. They are put as put_bindings puts them, and not by a call of it: the loop over children alone calls
// it, so that it is compiled into that loop, and a call is made only for a pattern with something inside.
fn put_root(
    sheet: &[u8],
    map: SheetMap,
    table: &[u8],
    c: usize,
    work: &mut [u8],
    top: usize,
) -> usize
    requires { ReadyTable sheet.now map table.now × (c < clauses sheet.now) × Room work.old top }
    ensures { Binds sheet.now work.old work.new top (binds_of sheet.now (root sheet.now c)) result }
{
    let records = map.patterns.start;
    let list = map.children.start;
    let p = root_at(sheet, map, c);
    let g = gives(sheet, records, list, table, p);
    let own = put_own(sheet, records, table, p, g.named, work, top);
    if g.count == 0 {
        return own;
    }
    put_all_bindings(sheet, records, list, table, p, g.first, g.count, work, own)
}

// What clause c's test in the column of the class opened, if it was opened as that column was tested, after `time` others.
fn put_opened(
    sheet: &[u8],
    map: SheetMap,
    table: &[u8],
    opened: &[u8; PATTERNS_MOST],
    c: usize,
    time: usize,
    class: usize,
    work: &mut [u8],
    top: usize,
) -> usize
    requires { ReadyTable sheet.now map table.now × (c < clauses sheet.now) × (class < patterns_most) × (time < patterns_most) × Room work.old top }
    ensures { Binds sheet.now work.old work.new top (numbers_held sheet.now (opened_test sheet.now opened.now c time class)) result }
{
    let Some(p) = at(table, CELL + PATTERNS_MOST * c + class).checked_sub(1) else {
        return top;
    };
    if usize::from(opened[p]) != time + 1 {
        return top;
    }
    let run = children_of(sheet, map, p);
    if run.count == 0 {
        return top;
    }
    put_all_bindings(
        sheet,
        map.patterns.start,
        map.children.start,
        table,
        p,
        run.first,
        run.count,
        work,
        top,
    )
}

// What the leaf of clause c binds, where the first n classes of `tested` were tested, behind the `top` bindings there are; the number of all.
pub fn leaf_bindings<'a>(
    sheet: &[u8],
    map: SheetMap,
    table: &[u8],
    c: usize,
    tested: &'a [u8; PATTERNS_MOST],
    n: usize,
    opened: &'a [u8; PATTERNS_MOST],
    work: &mut [u8],
    top: usize,
) -> usize
    requires { ReadyTable sheet.now map table.now × LeafAsked sheet.now c tested.now n × Room work.old top }
    ensures { Binds sheet.now work.old work.new top (leaf_numbers sheet.now opened.now (take n tested.now) c) result }
{
    let mut next = put_root(sheet, map, table, c, work, top);
    for time in 0..n {
        let class = usize::from(tested[time]);
        next = put_opened(sheet, map, table, opened, c, time, class, work, next);
    }
    next
}
