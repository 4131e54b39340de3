// The tree of a sheet, before it is hoisted: the matrix of its clauses built into an empty arena.
// What is told of it is in the words of the rules: their tree of the sheet's patterns, or that it has too many nodes.
ghost use Rattle.std.specs.Prelude.{◌≤◌, length};
ghost use Rattle.build_matrix.specs.Ready.{ReadyTable};
ghost use Rattle.build_arena.specs.Arena.{arena_end};
ghost use Rattle.build_nodes.specs.Raw.{BuildsRaw};

use crate::build::do_build_tree;
use crate::tops::Tops;
use base_numbers::sheet::CLAUSES_MOST;
use build_matrix::Sizes;
use build_matrix::splitting::first_matrix;
use format_sheet::SheetMap;

// By the sheet's table; none where it has more than 1,024 nodes.
pub fn build_tree(sheet: &[u8], map: SheetMap, table: &[u8], work: &mut [u8]) -> Option<Tops>
    requires { ReadyTable sheet.now map table.now × (arena_end ≤ length work.old) }
    ensures { BuildsRaw sheet.now work.new result }
{
    let first = first_matrix(sheet, map, table);
    let none = Tops {
        nodes: 0,
        cases: 0,
        bindings: 0,
        leaves: [0; CLAUSES_MOST],
    };
    let sizes = Sizes {
        rows: first.rows.count,
        columns: first.columns.count,
        tested: first.tested.count,
    };
    let mut tested = first.tested.list;
    do_build_tree(
        sheet,
        map,
        table,
        &first.rows.list,
        &first.columns.list,
        &mut tested,
        &first.opened,
        sizes,
        work,
        none,
    )
}
