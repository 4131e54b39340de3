// The path records: for each path where its steps start among all steps, and how many there are.
// The table has how many steps the path of a class has.
ghost use Rattle.std.specs.Prelude.{◌≡◌, map, ◌+◌, ◌*◌, ◌<◌, ◌≤◌, length};
ghost use Rattle.base_words.specs.Words.{text_at};
ghost use Rattle.base_words.specs.Stored.{stored};
ghost use Rattle.spec_rules.specs.Limits.{path_size, patterns_most, tree_room};
ghost use Rattle.build_table.specs.Table.{table_size};
ghost use Rattle.build_file_tail.specs.Tail.{Puts, Used, count_in, together, path_record, path_records};

use base_numbers::tree::PATH_SIZE;
use build_table::DEPTH;
use format_parts::sections::first_of;
use format_records::writing::put_two_words;

// The record of a path of `count` steps, of which the first is `first`.
fn put_path(tree: &mut [u8], at: usize, first: u16, count: u16)
    requires { at + path_size ≤ length tree.old }
    ensures { tree.new ≡ stored tree.old at (path_record first count) }
{
    put_two_words(tree, at, first_of(count, first), count);
}

pub(crate) fn put_paths(
    table: &[u8],
    classes: &[u8],
    count: usize,
    tree: &mut [u8],
    at: usize,
) -> usize
    requires table_len { (length table.now ≡ table_size) × Used patterns_most classes.now count × (at + path_size * count ≤ length tree.old) }
    requires count_bound { together (map (count_in table.now) (text_at classes.now 0 count)) < tree_room }
    ensures { Puts tree.old tree.new at result (path_records 0 (map (count_in table.now) (text_at classes.now 0 count))) }
{
    let mut first: u16 = 0;
    for i in 0..count {
        let steps = u16::from(table[DEPTH + usize::from(classes[i])]);
        put_path(tree, at + PATH_SIZE * i, first, steps);
        first += steps;
    }
    at + PATH_SIZE * count
}
