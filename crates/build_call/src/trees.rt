// The tree of an accepted sheet on its way into the file: refusals 12, 13 and 14 in that order, none of them after more work than a tree of
// 1,024 nodes takes; then its scopes, and the file.
ghost use Rattle.std.specs.Prelude.{◌≡◌, ◌≤◌, Ok, length};
ghost use Rattle.base_words.specs.Words.{zeros};
ghost use Rattle.spec_rules.specs.Limits.{tree_room, work_room};
ghost use Rattle.format_sheet.specs.Check.{SheetAccepts};
ghost use Rattle.build_table.specs.Tabled.{Tabled};
ghost use Rattle.build_call.specs.Promises.{ClearTree, GivesTree};
ghost use Rattle.build_call.specs.Raw.{Raw, Fitting, Hoistable, Whole};

use crate::BuiltTree;
use crate::counts::{hoist_bindings, hoists};
use base_numbers::sheet::{CLAUSES_MOST, PATTERNS_MOST};
use base_numbers::tree::{BINDING_SIZE, BINDINGS_MOST, CASE_SIZE, NODE_SIZE, NODES_MOST};
use build_file_nodes::write_nodes;
use build_file_tail::{Starts, put_tail};
use build_nodes::raw;
use build_nodes::tops::Tops;
use build_scopes::{NODES_FEW, Scopes, get_hoist_paths};
use build_table::{TABLE, fill};
use format_parts::refusals::{Reason, Refusal, require};
use format_sheet::SheetMap;

// The file: nodes, cases and bindings, then what follows them.
fn write_tree(
    sheet: &[u8],
    map: SheetMap,
    table: &[u8],
    work: &[u8],
    tops: Tops,
    scopes: Scopes,
    tree: &mut [u8],
) -> BuiltTree
    requires sheet_accepts { SheetAccepts sheet.now map × Tabled sheet.now table.now × Whole sheet.now work.now tops.nodes tops.cases scopes }
    requires clear_tree { ClearTree tree.old }
    ensures { GivesTree sheet.now tree.old tree.new (Ok result) }
{
    let mut classes = [0u8; PATTERNS_MOST];
    let written = write_nodes(
        work,
        tops.nodes,
        tops.cases,
        scopes,
        map.clauses.count,
        tree,
        &mut classes,
    );
    let cases = NODE_SIZE * written.nodes;
    let bindings = cases + CASE_SIZE * written.cases;
    let paths = bindings + BINDING_SIZE * written.bindings;
    let starts = Starts {
        cases,
        bindings,
        paths,
    };
    let end = put_tail(sheet, map, table, &classes, written.paths, tree, starts);
    BuiltTree {
        length: end as u16,
        nodes: written.nodes as u16,
        bindings: written.bindings as u16,
    }
}

// With its scopes: 13 for all bindings, 14, or the file.
fn write_hoisted(
    sheet: &[u8],
    map: SheetMap,
    table: &[u8],
    work: &[u8],
    tops: Tops,
    scopes: Scopes,
    tree: &mut [u8],
) -> Result<BuiltTree, Refusal>
    requires sheet_accepts { SheetAccepts sheet.now map × Tabled sheet.now table.now × Hoistable sheet.now work.now tops.nodes tops.cases tops.bindings scopes }
    requires clear_tree { ClearTree tree.old }
    ensures { GivesTree sheet.now tree.old tree.new result }
{
    let more = hoist_bindings(work, scopes, map.clauses.count);
    require(tops.bindings + more <= BINDINGS_MOST, Reason::Bindings)?;
    // The scopes tell that no clause is idle by the number of clauses there may be.
    let idle = scopes.idle;
    if idle < CLAUSES_MOST {
        return Err(Refusal {
            reason: Reason::Idle,
            place: idle as u16,
        });
    }
    Ok(write_tree(sheet, map, table, work, tops, scopes, tree))
}

// Its scopes, over a table with room for the nodes: `sets` then has the clauses with a leaf at or below each of them.
fn hoist_with(
    sheet: &[u8],
    map: SheetMap,
    table: &[u8],
    work: &[u8],
    tops: Tops,
    sets: &mut [u32],
    tree: &mut [u8],
) -> Result<BuiltTree, Refusal>
    requires sheet_accepts { SheetAccepts sheet.now map × Tabled sheet.now table.now × Fitting sheet.now work.now tops.nodes tops.cases tops.bindings × (tops.nodes ≤ length sets.old) }
    requires clear_tree { ClearTree tree.old }
    ensures { GivesTree sheet.now tree.old tree.new result }
{
    let scopes = get_hoist_paths(work, tops.nodes, map.clauses.count, sets);
    write_hoisted(sheet, map, table, work, tops, scopes, tree)
}

// The table is a small one where that is enough.
fn hoist_tree(
    sheet: &[u8],
    map: SheetMap,
    table: &[u8],
    work: &[u8],
    tops: Tops,
    tree: &mut [u8],
) -> Result<BuiltTree, Refusal>
    requires sheet_accepts { SheetAccepts sheet.now map × Tabled sheet.now table.now × Fitting sheet.now work.now tops.nodes tops.cases tops.bindings }
    requires clear_tree { ClearTree tree.old }
    ensures { GivesTree sheet.now tree.old tree.new result }
{
    if tops.nodes <= NODES_FEW {
        hoist_with(sheet, map, table, work, tops, &mut [0; NODES_FEW], tree)
    } else {
        hoist_with(sheet, map, table, work, tops, &mut [0; NODES_MOST], tree)
    }
}

// The tree in the arena, with the counts of its building: 12, 13, or on to its scopes.
fn finish(
    sheet: &[u8],
    map: SheetMap,
    table: &[u8],
    work: &[u8],
    tops: Tops,
    tree: &mut [u8],
) -> Result<BuiltTree, Refusal>
    requires sheet_accepts { SheetAccepts sheet.now map × Tabled sheet.now table.now × Raw sheet.now work.now tops.nodes tops.cases tops.bindings tops.leaves }
    requires clear_tree { ClearTree tree.old }
    ensures { GivesTree sheet.now tree.old tree.new result }
{
    let more = hoists(tops.leaves, map.clauses.count);
    require(tops.nodes + more <= NODES_MOST, Reason::Nodes)?;
    require(tops.bindings <= BINDINGS_MOST, Reason::Bindings)?;
    hoist_tree(sheet, map, table, work, tops, tree)
}

// The tree of an accepted sheet, on buffers that are large enough, the tree's all zero.
pub(crate) fn build_tree(
    sheet: &[u8],
    map: SheetMap,
    tree: &mut [u8],
    work: &mut [u8],
) -> Result<BuiltTree, Refusal>
    requires { SheetAccepts sheet.now map × (tree_room ≤ length tree.old) × (work_room ≤ length work.old) × (tree.old ≡ zeros (length tree.old)) }
    ensures { GivesTree sheet.now tree.old tree.new result }
{
    let mut table = [0u8; TABLE];
    fill(sheet, map, &mut table);
    let Some(tops) = raw::build_tree(sheet, map, &table, work) else {
        return Err(Refusal {
            reason: Reason::Nodes,
            place: 0,
        });
    };
    finish(sheet, map, &table, work, tops, tree)
}
