// The tail of a tree file: the paths that its nodes and bindings use, their steps, the sheet's pool and the trailer.
// A path is known by its class, a pattern's number; its steps are read off the table of patterns.
#![tactic(auto)]

mod records;
mod steps;

ghost use Rattle.std.specs.Prelude.{◌≡◌, ◌+◌, ◌<◌, ◌≤◌, length};
ghost use Rattle.base_words.specs.Words.{word_bytes};
ghost use Rattle.base_words.specs.Stored.{stored};
ghost use Rattle.spec_rules.specs.Limits.{tree_trailer, tree_room};
ghost use Rattle.spec_rules.specs.SheetFile.{pool_size, pool};
ghost use Rattle.format_sheet.specs.Check.{SheetAccepts};
ghost use Rattle.build_file_tail.specs.Tail.{Puts, TailReady, trailer_bytes, sheet_tail};

use base_numbers::tree::TREE_TRAILER;
use base_numbers::tree_trailer;
use base_words::put_word;
use format_sheet::SheetMap;
use records::put_paths;
use steps::put_all_steps;

// Where the cases, the bindings and the paths of a file start; the paths start where the bindings end.
#[derive(Drop)]
pub struct Starts {
    pub cases: usize,
    pub bindings: usize,
    pub paths: usize,
}

fn copy_pool(sheet: &[u8], map: SheetMap, tree: &mut [u8], at: usize) -> usize
    requires { SheetAccepts sheet.now map × (at + pool_size sheet.now ≤ length tree.old) }
    ensures { Puts tree.old tree.new at result (pool sheet.now) }
{
    let from = map.pool.start;
    let size = map.pool.count;
    // byte by byte: `copy_from_slice` needs memmove, and an archive for C is to need memcpy and memset alone
    for i in 0..size {
        tree[at + i] = sheet[from + i];
    }
    at + size
}

fn put_number(tree: &mut [u8], at: usize, number: usize)
    requires { (at + 1 < length tree.old) × (number < 65536) }
    ensures { tree.new ≡ stored tree.old at (word_bytes number) }
{
    put_word(tree, at, number as u16);
}

// Where the six sections start, and the length of the file, of which this is the end.
fn put_trailer(tree: &mut [u8], at: usize, starts: Starts, steps: usize, pool: usize)
    requires tree_trailer_in_bounds { (at + tree_trailer ≤ length tree.old) × (at + tree_trailer < tree_room) }
    requires cases_le_bindings { (starts.cases ≤ starts.bindings) × (starts.bindings ≤ starts.paths) × (starts.paths ≤ steps) × (steps ≤ pool) × (pool ≤ at) }
    ensures { tree.new ≡ stored tree.old at (trailer_bytes starts.cases starts.bindings starts.paths steps pool at) }
{
    put_number(tree, at, 0);
    put_number(tree, at + tree_trailer::CASES, starts.cases);
    put_number(tree, at + tree_trailer::BINDINGS, starts.bindings);
    put_number(tree, at + tree_trailer::PATHS, starts.paths);
    put_number(tree, at + tree_trailer::STEPS, steps);
    put_number(tree, at + tree_trailer::POOL, pool);
    put_number(tree, at + tree_trailer::LENGTH, at + TREE_TRAILER);
}

// All that follows the bindings: the paths of the first `count` classes, their steps, the pool and the trailer; where the file ends.
pub fn put_tail(
    sheet: &[u8],
    map: SheetMap,
    table: &[u8],
    classes: &[u8],
    count: usize,
    tree: &mut [u8],
    starts: Starts,
) -> usize
    requires { TailReady sheet.now map table.now classes.now count tree.old starts.cases starts.bindings starts.paths }
    ensures { Puts tree.old tree.new starts.paths result (sheet_tail sheet.now classes.now count starts.cases starts.bindings starts.paths) }
{
    let steps = put_paths(table, classes, count, tree, starts.paths);
    let pool = put_all_steps(sheet, map, table, classes, count, tree, steps);
    let end = copy_pool(sheet, map, tree, pool);
    put_trailer(tree, end, starts, steps, pool);
    end + TREE_TRAILER
}
