// Rule 1: what each pattern of a checked sheet is to its clause's row, in one table that later rules read by pattern number.
// Filling it goes up the pattern numbers: a pattern's own fields are set by its parent, which has a lower number.
#![tactic(auto)]

ghost use Rattle.std.specs.Prelude.{◌≡◌, false, ℕ, ◌+◌, ◌<◌, ◌≤◌, eqb, length, get_or};
ghost use Rattle.base_words.specs.Words.{both, zeros};
ghost use Rattle.spec_rules.specs.Kinds.{constructor_pattern, data_type, list_with_tail_pattern};
ghost use Rattle.spec_rules.specs.Limits.{patterns_most, depth_most};
ghost use Rattle.spec_rules.specs.SheetFile.{patterns, clauses};
ghost use Rattle.spec_rules.specs.Patterns.{ListWithRest, Constructor};
ghost use Rattle.build_table.specs.Standing.{kind_of, type_of, owner_of, is_test};
ghost use Rattle.build_table.specs.Table.{type_at, depth_at, table_size, placed, placed_each, placed_below, rooted, rooted_each, above_in, same_step_in, class_in, classed, indexed, tested, first_before, indices_in};
ghost use Rattle.format_sheet.specs.Check.{SheetAccepts};
ghost use Rattle.build_table.specs.Tabled.{Placed, Classed, Tabled, Filled, Parts, Reading, Ranged, RowBelow};

use base_numbers::sheet::{CLAUSES_MOST, DEPTH_MOST, PATTERNS_MOST};
use base_numbers::{pattern_kinds, step_kinds, type_kinds};
use format_sheet::SheetMap;
use format_sheet::records::{
    PatternRecord, TypeRecord, child_at, constructor_at, entry_at, pattern_at, root_at, type_at,
};

// By pattern number: the lowest pattern with the same path, one more than the test that it is inside of (or 0), the pattern that
// its path goes on from, its type, the step (SAME: none), the step's index, how many steps its path has, its clause, their indices.
pub const CLASS: usize = 0;

pub const OWNER: usize = PATTERNS_MOST;

pub const ABOVE: usize = 2 * PATTERNS_MOST;

pub const TYPE: usize = 3 * PATTERNS_MOST;

pub const STEP: usize = 4 * PATTERNS_MOST;

pub const INDEX: usize = 5 * PATTERNS_MOST;

pub const DEPTH: usize = 6 * PATTERNS_MOST;

const CLAUSE: usize = 7 * PATTERNS_MOST;

const INDICES: usize = 8 * PATTERNS_MOST;

// By clause and class: one more than the test there, or 0.
pub const CELL: usize = INDICES + DEPTH_MOST * PATTERNS_MOST;

pub const TABLE: usize = CELL + PATTERNS_MOST * CLAUSES_MOST;

// The number of no step, behind the kinds of steps.
pub const SAME: u8 = step_kinds::LISTTAIL + 1;

// A byte as an index.
pub fn at(table: &[u8], i: usize) -> usize
    requires { i < length table.now }
    ensures { result ≡ get_or table.now i 0 }
{
    usize::from(table[i])
}

// What pattern p gives to its child q.
fn put_child(table: &mut [u8], p: usize, q: usize, step: u8, index: usize, tipo: usize, owner: u8)
    requires { (length table.old ≡ table_size) × (p < patterns_most) × (q < patterns_most) × (index < 256) × (tipo < 256) }
    ensures { table.new ≡ placed table.old p q step index tipo owner }
{
    let clause = table[CLAUSE + p];
    table[ABOVE + q] = p as u8;
    table[STEP + q] = step;
    table[INDEX + q] = index as u8;
    table[TYPE + q] = tipo as u8;
    table[OWNER + q] = owner;
    table[CLAUSE + q] = clause;
}

// The types of a pattern's first children: how many, the entry of the first, and how much further on each next one is.
#[derive(Drop)]
struct TypeRun {
    count: usize,
    first: usize,
    stride: usize,
}

// The first children of p, as many as there are types.
fn put_children(
    sheet: &[u8],
    map: SheetMap,
    table: &mut [u8],
    p: usize,
    types: TypeRun,
    step: u8,
    owner: u8,
)
    requires { SheetAccepts sheet.now map × (length table.old ≡ table_size) × Parts sheet.now p types.count types.first types.stride }
    ensures { table.new ≡ placed_each sheet.now table.old p step types.first types.stride owner 0 types.count }
{
    let r = pattern_at(sheet, map, p);
    for i in 0..types.count {
        put_child(
            table,
            p,
            child_at(sheet, map, r.first + i),
            step,
            i,
            entry_at(sheet, map, types.first + types.stride * i),
            owner,
        );
    }
}

// Whether a type has one constructor.
fn one_constructor(ty: TypeRecord) -> bool
    ensures { result ≡ both (eqb ty.kind data_type) (eqb ty.count 1) }
{
    ty.kind == type_kinds::DATA && ty.count == 1
}

// The fields of constructor pattern p: inside p, if it is a test.
fn place_fields(
    sheet: &[u8],
    map: SheetMap,
    table: &mut [u8],
    p: usize,
    r: PatternRecord,
    ty: TypeRecord,
    owner: u8,
)
    requires { Reading sheet.now map table.old p r ty owner × (r.kind ≡ constructor_pattern) }
    ensures { table.new ≡ placed_below sheet.now table.old p Constructor }
{
    let fields = constructor_at(sheet, map, ty.first + r.a);
    let types = TypeRun {
        count: r.count,
        first: fields.first,
        stride: 1,
    };
    let inside = if one_constructor(ty) {
        owner
    } else {
        (p + 1) as u8
    };
    put_children(sheet, map, table, p, types, step_kinds::CONSTR, inside);
}

// The elements and the tail of list p, all inside p.
fn place_tailed(
    sheet: &[u8],
    map: SheetMap,
    table: &mut [u8],
    p: usize,
    r: PatternRecord,
    ty: TypeRecord,
    tipo: usize,
)
    requires { Reading sheet.now map table.old p r ty (owner_of sheet.now p) × (r.kind ≡ list_with_tail_pattern) × (tipo ≡ type_of sheet.now p) }
    ensures { table.new ≡ placed_below sheet.now table.old p ListWithRest }
{
    let n = r.count - 1;
    let tail = child_at(sheet, map, r.first + n);
    put_children(
        sheet,
        map,
        table,
        p,
        TypeRun {
            count: n,
            first: ty.first,
            stride: 0,
        },
        step_kinds::LIST,
        (p + 1) as u8,
    );
    put_child(table, p, tail, step_kinds::LISTTAIL, n, tipo, (p + 1) as u8);
}

// What pattern p gives to its children: one decision over kinds 0 to 9.
fn place_children(sheet: &[u8], map: SheetMap, table: &mut [u8], p: usize)
    requires { SheetAccepts sheet.now map × (length table.old ≡ table_size) × (p < patterns sheet.now) × Placed sheet.now table.old p }
    ensures { table.new ≡ placed_below sheet.now table.old p (kind_of sheet.now p) }
{
    let r = pattern_at(sheet, map, p);
    let tipo = at(table, TYPE + p);
    let owner = table[OWNER + p];
    let ty = type_at(sheet, map, tipo);
    match r.kind {
        pattern_kinds::ASSIGN => put_child(
            table,
            p,
            child_at(sheet, map, r.first),
            SAME,
            0,
            tipo,
            owner,
        ),
        pattern_kinds::LIST => put_children(
            sheet,
            map,
            table,
            p,
            TypeRun {
                count: r.count,
                first: ty.first,
                stride: 0,
            },
            step_kinds::LIST,
            (p + 1) as u8,
        ),
        pattern_kinds::LIST_WITH_TAIL => place_tailed(sheet, map, table, p, r, ty, tipo),
        pattern_kinds::CONSTRUCTOR => place_fields(sheet, map, table, p, r, ty, owner),
        pattern_kinds::PAIR => put_children(
            sheet,
            map,
            table,
            p,
            TypeRun {
                count: r.count,
                first: ty.first,
                stride: 1,
            },
            step_kinds::PAIR,
            owner,
        ),
        pattern_kinds::TUPLE => put_children(
            sheet,
            map,
            table,
            p,
            TypeRun {
                count: r.count,
                first: ty.first,
                stride: 1,
            },
            step_kinds::TUPLE,
            owner,
        ),
        _ => {}
    }
}

// Whether the same step leads to p and to q, from patterns of the same class and type.
fn same_step(table: &[u8], p: usize, q: usize) -> bool
    requires { (length table.now ≡ table_size) × (p < patterns_most) × (q < patterns_most) × (above_in table.now p < patterns_most) × (above_in table.now q < patterns_most) }
    ensures { result ≡ same_step_in table.now p q }
{
    let x = at(table, ABOVE + p);
    let y = at(table, ABOVE + q);
    table[STEP + p] == table[STEP + q]
        && table[INDEX + p] == table[INDEX + q]
        && table[CLASS + x] == table[CLASS + y]
        && table[TYPE + x] == table[TYPE + y]
}

// The lowest pattern that the same step leads to; none is below `from`.
fn class_of(table: &[u8], p: usize, from: usize) -> usize
    requires table_len { (length table.now ≡ table_size) × (p < patterns_most) × ((q : ℕ) → q ≤ p → above_in table.now q < patterns_most) }
    requires from_le_p { (from ≤ p) × ((q : ℕ) → q < from → same_step_in table.now q p ≡ false) }
    ensures { result ≡ class_in table.now p }
{
    (from..p).find(|&q| same_step(table, q, p)).unwrap_or(p)
}

// The class of p, and how many steps its path has. What a step from a path leads to comes after the lowest pattern with that path.
fn put_class(table: &mut [u8], p: usize)
    requires { Ranged table.old p }
    ensures { table.new ≡ classed table.old p }
{
    let above = at(table, ABOVE + p);
    let class = table[CLASS + above];
    let depth = table[DEPTH + above];
    if table[STEP + p] == SAME {
        table[CLASS + p] = class;
        table[DEPTH + p] = depth;
        return;
    }
    let first = class_of(table, p, usize::from(class));
    table[CLASS + p] = first as u8;
    table[DEPTH + p] = depth + 1;
}

// The indices of the steps to p: those of the pattern above, and its own.
fn put_indices(table: &mut [u8], p: usize)
    requires { RowBelow table.old p }
    ensures { table.new ≡ indexed table.old p }
{
    let above = at(table, ABOVE + p);
    let depth = at(table, DEPTH + above);
    let own = table[INDEX + p];
    let from = INDICES + DEPTH_MOST * above;
    let to = INDICES + DEPTH_MOST * p;
    table.copy_within(from..from + depth, to);
    table[to + depth] = own;
}

// Whether pattern p stands in a column: an integer, byte string, list, or constructor of a several-constructor type.
pub fn is_test(sheet: &[u8], map: SheetMap, table: &[u8], p: usize) -> bool
    requires { SheetAccepts sheet.now map × (length table.now ≡ table_size) × (p < patterns sheet.now) × (get_or table.now (type_at + p) 0 ≡ type_of sheet.now p) }
    ensures { result ≡ is_test sheet.now p }
{
    let r = pattern_at(sheet, map, p);
    let ty = type_at(sheet, map, at(table, TYPE + p));
    match r.kind {
        pattern_kinds::INTEGER
        | pattern_kinds::BYTE_STRING
        | pattern_kinds::LIST
        | pattern_kinds::LIST_WITH_TAIL => true,
        pattern_kinds::CONSTRUCTOR => !one_constructor(ty),
        _ => false,
    }
}

// Pattern p in its clause's column, if it is a test.
fn put_test(sheet: &[u8], map: SheetMap, table: &mut [u8], p: usize)
    requires { SheetAccepts sheet.now map × (length table.old ≡ table_size) × (p < patterns sheet.now) × Placed sheet.now table.old p × Classed sheet.now table.old p }
    ensures { table.new ≡ tested table.old (is_test sheet.now p) p }
{
    if is_test(sheet, map, table, p) {
        let clause = at(table, CLAUSE + p);
        let class = at(table, CLASS + p);
        table[CELL + PATTERNS_MOST * clause + class] = (p + 1) as u8;
    }
}

// The root of clause c.
fn put_root(table: &mut [u8], root: usize, c: usize, tipo: usize)
    requires { (length table.old ≡ table_size) × (root < patterns_most) × (c < 256) × (tipo < 256) }
    ensures { table.new ≡ rooted table.old root c tipo }
{
    table[STEP + root] = SAME;
    table[TYPE + root] = tipo as u8;
    table[CLAUSE + root] = c as u8;
}

// The root of each clause.
fn put_roots(sheet: &[u8], map: SheetMap, table: &mut [u8])
    requires { SheetAccepts sheet.now map × (length table.old ≡ table_size) }
    ensures { table.new ≡ rooted_each sheet.now table.old 0 (clauses sheet.now) }
{
    for c in 0..map.clauses.count {
        put_root(table, root_at(sheet, map, c), c, map.subject);
    }
}

// Pattern p, whose own fields are set: its class, its indices, its cell, and what it gives to its children.
fn fill_at(sheet: &[u8], map: SheetMap, table: &mut [u8], p: usize)
    requires { SheetAccepts sheet.now map × (p < patterns sheet.now) × Filled sheet.now table.old p p p p }
    ensures { Filled sheet.now table.new (p + 1) (p + 1) (p + 1) (p + 1) }
{
    put_class(table, p);
    put_indices(table, p);
    put_test(sheet, map, table, p);
    place_children(sheet, map, table, p);
}

// The table of a checked sheet, in bytes that are all zero.
pub fn fill(sheet: &[u8], map: SheetMap, table: &mut [u8])
    requires { SheetAccepts sheet.now map × (table.old ≡ zeros table_size) }
    ensures { Tabled sheet.now table.new }
{
    put_roots(sheet, map, table);
    for p in 0..map.patterns.count {
        fill_at(sheet, map, table, p);
    }
}

// Whether the path of p comes before that of q, by their indices.
#[tactic(auto, using(crate::specs::ClassingLaws::rows_compared))]
pub fn before(table: &[u8], p: usize, q: usize) -> bool
    requires table_len { (length table.now ≡ table_size) × (p < patterns_most) × (q < patterns_most) }
    requires p_bound { (get_or table.now (depth_at + p) 0 < depth_most) × (get_or table.now (depth_at + q) 0 < depth_most) }
    ensures { result ≡ first_before (indices_in table.now p) (indices_in table.now q) }
{
    let a = INDICES + DEPTH_MOST * p;
    let b = INDICES + DEPTH_MOST * q;
    let one = &table[a..a + at(table, DEPTH + p)];
    let other = &table[b..b + at(table, DEPTH + q)];
    one < other
}
