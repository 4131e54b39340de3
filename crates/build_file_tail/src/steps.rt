// The steps of paths, as the table has them: a pattern's own step, if it has one, follows those of the pattern above.
// So a path is climbed from its class to the root, and its steps are stored from the last to the first.
ghost use Rattle.std.specs.Prelude.{◌≡◌, ◌+◌, ◌<◌, ◌≤◌, length};
ghost use Rattle.spec_rules.specs.SheetFile.{patterns};
ghost use Rattle.spec_rules.specs.TreeFile.{path_steps, steps_bytes};
ghost use Rattle.build_table.specs.Standing.{path_of, step_of};
ghost use Rattle.format_sheet.specs.Check.{SheetAccepts};
ghost use Rattle.build_table.specs.Tabled.{Tabled};
ghost use Rattle.build_file_tail.specs.Tail.{Puts, Used, used_paths, own_steps, flag_of};

use base_numbers::tree::STEP_SIZE;
use base_numbers::{step_kinds, type_flags, type_kinds};
use build_table::{ABOVE, DEPTH, INDEX, SAME, STEP, TYPE};
use format_records::writing;
use format_sheet::SheetMap;
use format_sheet::records::{TypeRecord, type_at};

// A step's flag: 1 for a field of a list-decorated one-constructor type.
fn flag_of(step: u8, ty: TypeRecord) -> u8
    ensures { result ≡ flag_of step ty }
{
    let decorated = step == step_kinds::CONSTR
        && ty.kind == type_kinds::DATA
        && ty.count == 1
        && ty.flag >= type_flags::DECORATED;
    u8::from(decorated)
}

// The step to p itself, if there is one, so that it ends at `end`; where it starts.
fn put_step(
    sheet: &[u8],
    map: SheetMap,
    table: &[u8],
    p: usize,
    tree: &mut [u8],
    end: usize,
) -> usize
    requires sheet_accepts { SheetAccepts sheet.now map × Tabled sheet.now table.now × (p < patterns sheet.now) }
    requires p_len_bound { (length (path_steps (own_steps (step_of sheet.now p))) ≤ end) × (end ≤ length tree.old) }
    ensures { Puts tree.old tree.new result end (path_steps (own_steps (step_of sheet.now p))) }
{
    let step = table[STEP + p];
    if step == SAME {
        return end;
    }
    let above = build_table::at(table, ABOVE + p);
    let tipo = table[TYPE + above];
    let flag = flag_of(step, type_at(sheet, map, usize::from(tipo)));
    let start = end - STEP_SIZE;
    let index = u16::from(table[INDEX + p]);
    writing::put_step(tree, start, step, flag, index, u16::from(tipo));
    start
}

// The steps of the class's path.
fn put_steps(
    sheet: &[u8],
    map: SheetMap,
    table: &[u8],
    class: usize,
    tree: &mut [u8],
    at: usize,
) -> usize
    requires sheet_accepts { SheetAccepts sheet.now map × Tabled sheet.now table.now × (class < patterns sheet.now) }
    requires class_in_bounds { at + length (path_steps (path_of sheet.now class)) ≤ length tree.old }
    ensures { Puts tree.old tree.new at result (path_steps (path_of sheet.now class)) }
{
    let end = at + STEP_SIZE * build_table::at(table, DEPTH + class);
    let mut p = class;
    let mut to = end;
    while at < to {
        to = put_step(sheet, map, table, p, tree, to);
        p = build_table::at(table, ABOVE + p);
    }
    end
}

// The steps of the paths of the first `count` classes.
pub(crate) fn put_all_steps(
    sheet: &[u8],
    map: SheetMap,
    table: &[u8],
    classes: &[u8],
    count: usize,
    tree: &mut [u8],
    at: usize,
) -> usize
    requires sheet_accepts { SheetAccepts sheet.now map × Tabled sheet.now table.now × Used (patterns sheet.now) classes.now count }
    requires count_in_bounds { at + length (steps_bytes (used_paths sheet.now classes.now 0 count)) ≤ length tree.old }
    ensures { Puts tree.old tree.new at result (steps_bytes (used_paths sheet.now classes.now 0 count)) }
{
    let mut end = at;
    for i in 0..count {
        end = put_steps(sheet, map, table, usize::from(classes[i]), tree, end);
    }
    end
}
