// The tree of a matrix: a leaf where no column is chosen, else a switch with the trees of its cases and of its default.
// One more column is tested at each call, and there are no more columns than patterns: 192 less the columns tested falls.
// A matrix is lent by its parts, so that none is copied: its rows, its columns, the classes tested and what is opened, with how many there
// are of each. The classes tested are in one array for the whole building: a call writes behind those of its caller, and leaves them.
ghost use Rattle.std.specs.Prelude.{◌≡◌, ◌<◌, ◌≤◌, ◌+◌, ◌*◌, length, take};
ghost use Rattle.base_words.specs.Words.{pick};
ghost use Rattle.base_words.specs.Stored.{stored};
ghost use Rattle.spec_rules.specs.Kinds.{list_switch_node, switch_node};
ghost use Rattle.spec_rules.specs.Limits.{patterns_most, nodes_most, node_size};
ghost use Rattle.build_matrix.specs.Ready.{ReadyTable};
ghost use Rattle.build_matrix.specs.Bound.{clause_leaf};
ghost use Rattle.build_matrix.specs.Numbered.{tree_at};
ghost use Rattle.build_matrix.specs.InNumbers.{in_numbers};
ghost use Rattle.build_matrix.specs.Promises.{matrix_now, numbers_before};
ghost use Rattle.build_arena.specs.Arena.{arena_end, cases_most};
ghost use Rattle.build_leaves.specs.Bindings.{LeafAsked};
ghost use Rattle.build_nodes.specs.Built.{Roomy};
ghost use Rattle.build_nodes.specs.Steps.{Asked, AskedColumn, AskedCase, AskedCases};
ghost use Rattle.build_nodes.specs.Promises.{test_tree, PutsTree, BuildsTree, BuildsColumn, KeepsTested, switch_record};

use crate::tops::Tops;
use base_numbers::node_kinds;
use base_numbers::sheet::{CLAUSES_MOST, PATTERNS_MOST};
use base_numbers::tree::NODES_MOST;
use build_arena::reading::case_at;
use build_arena::writing::{put_child, put_node};
use build_cases::{CasesMet, meet_cases};
use build_leaves::leaf_bindings;
use build_matrix::Sizes;
use build_matrix::rows::highest_occurrence;
use build_matrix::splitting::{case_matrix, default_matrix};
use format_parts::sections::first_of;
use format_records::reading::Test;
use format_sheet::SheetMap;

// The leaf of a clause, where the first `time` of these classes were tested.
fn put_leaf<'a>(
    sheet: &[u8],
    map: SheetMap,
    table: &[u8],
    clause: usize,
    tested: &'a [u8; PATTERNS_MOST],
    time: usize,
    opened: &'a [u8; PATTERNS_MOST],
    work: &mut [u8],
    tops: Tops,
) -> Tops
    requires { ReadyTable sheet.now map table.now × LeafAsked sheet.now clause tested.now time × Roomy work.old tops × (tops.nodes < nodes_most) }
    ensures { PutsTree sheet.now work.old work.new (clause_leaf sheet.now opened.now (take time tested.now) clause) tops result }
{
    let top = leaf_bindings(
        sheet,
        map,
        table,
        clause,
        tested,
        time,
        opened,
        work,
        tops.bindings,
    );
    let count = (top - tops.bindings) as u16;
    let first = first_of(count, tops.bindings as u16);
    put_node(
        work,
        tops.nodes,
        node_kinds::LEAF,
        clause as u16,
        first,
        count,
        0,
        0,
    );
    let mut leaves = tops.leaves;
    leaves[clause] = 1;
    Tops {
        nodes: tops.nodes + 1,
        bindings: top,
        leaves,
        ..tops
    }
}

fn switch_kind(list: bool) -> u8
    ensures { result ≡ pick list list_switch_node switch_node }
{
    if list {
        node_kinds::LIST_SWITCH
    } else {
        node_kinds::SWITCH
    }
}

// The node of a switch, or of a list switch, at number k.
fn put_switch(work: &mut [u8], k: usize, class: usize, first: usize, met: CasesMet, default: usize)
    requires arena_end_in_bounds { (arena_end ≤ length work.old) × (k < nodes_most) × (class < patterns_most) × (default ≤ nodes_most + 1) }
    requires first_le_mid { (first ≤ met.mid) × (met.mid ≤ met.end) × (met.end < cases_most) }
    ensures { work.new ≡ stored work.old (node_size * k) (switch_record class first met default) }
{
    let kind = switch_kind(met.list);
    let cases = met.mid - first;
    let tails = met.end - met.mid;
    put_node(
        work,
        k,
        kind,
        class as u16,
        first as u16,
        cases as u16,
        tails as u16,
        default as u16,
    );
}

// The tree of the case of this test, of the column of this class.
#[cycle(build_case_build_cases_build_switch_do_build_tree)]
fn build_case<'a>(
    sheet: &[u8],
    map: SheetMap,
    table: &[u8],
    rows: &'a [u8; CLAUSES_MOST],
    columns: &'a [u8; PATTERNS_MOST],
    tested: &mut [u8; PATTERNS_MOST],
    opened: &'a [u8; PATTERNS_MOST],
    sizes: Sizes,
    class: usize,
    test: Test,
    work: &mut [u8],
    tops: Tops,
) -> Option<Tops>
    requires { AskedCase sheet.now map table.now (matrix_now rows.now columns.now tested.old opened.now sizes) class test work.old tops }
    ensures { BuildsTree sheet.now work.old work.new (test_tree sheet.now class (numbers_before rows.now columns.now tested.old opened.now sizes) test) tops result × KeepsTested sizes.tested tested.old tested.new }
{
    let mut some = [0u8; CLAUSES_MOST];
    let mut rest = [0u8; PATTERNS_MOST];
    let mut more = *opened;
    let case_sizes = case_matrix(
        sheet, map, table, rows, columns, tested, &mut more, sizes, class, test, &mut some,
        &mut rest,
    );
    do_build_tree(
        sheet, map, table, &some, &rest, tested, &more, case_sizes, work, tops,
    )
}

// The cases whose records stand from number `first` on, up to the number of cases there are: each gets its child's number and its tree.
#[cycle(build_case_build_cases_build_switch_do_build_tree)]
fn build_cases<'a>(
    sheet: &[u8],
    map: SheetMap,
    table: &[u8],
    rows: &'a [u8; CLAUSES_MOST],
    columns: &'a [u8; PATTERNS_MOST],
    tested: &mut [u8; PATTERNS_MOST],
    opened: &'a [u8; PATTERNS_MOST],
    sizes: Sizes,
    class: usize,
    work: &mut [u8],
    first: usize,
    from: Tops,
) -> Option<Tops>
    requires asked_column { AskedColumn sheet.now map table.now (matrix_now rows.now columns.now tested.old opened.now sizes) class }
    requires asked_cases { AskedCases sheet.now class (in_numbers (matrix_now rows.now columns.now tested.old opened.now sizes)) first work.old from }
    ensures { BuildsColumn sheet.now work.old work.new class (numbers_before rows.now columns.now tested.old opened.now sizes) first from result × KeepsTested sizes.tested tested.old tested.new }
{
    let mut tops = from;
    for i in first..from.cases {
        let test = case_at(work, i).test;
        put_child(work, i, tops.nodes as u16);
        tops = build_case(
            sheet, map, table, rows, columns, tested, opened, sizes, class, test, work, tops,
        )?;
    }
    Some(tops)
}

// A switch on the column of this class.
#[cycle(build_case_build_cases_build_switch_do_build_tree)]
fn build_switch<'a>(
    sheet: &[u8],
    map: SheetMap,
    table: &[u8],
    rows: &'a [u8; CLAUSES_MOST],
    columns: &'a [u8; PATTERNS_MOST],
    tested: &mut [u8; PATTERNS_MOST],
    opened: &'a [u8; PATTERNS_MOST],
    sizes: Sizes,
    class: usize,
    work: &mut [u8],
    tops: Tops,
) -> Option<Tops>
    requires { AskedColumn sheet.now map table.now (matrix_now rows.now columns.now tested.old opened.now sizes) class × Roomy work.old tops × (tops.nodes < nodes_most) }
    ensures { BuildsTree sheet.now work.old work.new (tree_at sheet.now (numbers_before rows.now columns.now tested.old opened.now sizes)) tops result × KeepsTested sizes.tested tested.old tested.new }
{
    let first = tops.cases;
    let met = meet_cases(
        sheet, map, table, rows, sizes.rows, opened, class, work, first,
    )?;
    let from = Tops {
        nodes: tops.nodes + 1,
        cases: met.end,
        ..tops
    };
    let next = build_cases(
        sheet, map, table, rows, columns, tested, opened, sizes, class, work, first, from,
    )?;
    let mut wild = [0u8; CLAUSES_MOST];
    let mut rest = [0u8; PATTERNS_MOST];
    let default_sizes = default_matrix(
        table, rows, columns, tested, opened, sizes, class, &mut wild, &mut rest,
    );
    if default_sizes.rows == 0 {
        put_switch(work, tops.nodes, class, first, met, 0);
        return Some(next);
    }
    put_switch(work, tops.nodes, class, first, met, next.nodes + 1);
    do_build_tree(
        sheet,
        map,
        table,
        &wild,
        &rest,
        tested,
        opened,
        default_sizes,
        work,
        next,
    )
}

// The tree of the matrix of these parts, which has a row, from the tops on.
#[cycle(build_case_build_cases_build_switch_do_build_tree)]
pub(crate) fn do_build_tree<'a>(
    sheet: &[u8],
    map: SheetMap,
    table: &[u8],
    rows: &'a [u8; CLAUSES_MOST],
    columns: &'a [u8; PATTERNS_MOST],
    tested: &mut [u8; PATTERNS_MOST],
    opened: &'a [u8; PATTERNS_MOST],
    sizes: Sizes,
    work: &mut [u8],
    tops: Tops,
) -> Option<Tops>
    requires { Asked sheet.now map table.now (matrix_now rows.now columns.now tested.old opened.now sizes) work.old tops }
    ensures { BuildsTree sheet.now work.old work.new (tree_at sheet.now (numbers_before rows.now columns.now tested.old opened.now sizes)) tops result × KeepsTested sizes.tested tested.old tested.new }
{
    if tops.nodes == NODES_MOST {
        return None;
    }
    match highest_occurrence(table, rows, sizes.rows, columns, sizes.columns, opened) {
        Some(class) => build_switch(
            sheet, map, table, rows, columns, tested, opened, sizes, class, work, tops,
        ),
        None => {
            let clause = usize::from(rows[0]);
            Some(put_leaf(
                sheet,
                map,
                table,
                clause,
                tested,
                sizes.tested,
                opened,
                work,
                tops,
            ))
        }
    }
}
