// The bindings of a leaf or a hoist: the records of the arena's leaf with the path's number in the place of its class.
// One pass over the records, each read and written once.
ghost use Rattle.std.specs.Prelude.{◌+◌, ◌*◌, ◌<◌, ◌≤◌, length};
ghost use Rattle.spec_rules.specs.Limits.{binding_size};
ghost use Rattle.build_file_nodes.specs.Uses.{uses_of, Counted};
ghost use Rattle.build_file_nodes.specs.Model.{BindingAsked, BindingsAsked, PutBinding, PutBindings};

use crate::uses::used;
use base_numbers::sheet::PATTERNS_MOST;
use base_numbers::tree::BINDING_SIZE;
use build_arena::reading::binding_at;
use format_records::writing::put_two_words;

fn put_binding(
    work: &[u8],
    i: usize,
    tree: &mut [u8],
    at: usize,
    number: &mut [u8; PATTERNS_MOST],
    list: &mut [u8; PATTERNS_MOST],
    paths: usize,
) -> usize
    requires { BindingAsked work.now i × (at + 3 < length tree.old) × Counted (uses_of number.old list.old paths) }
    ensures { PutBinding work.now i at (uses_of number.old list.old paths) tree.old tree.new (uses_of number.new list.new result) }
{
    let binding = binding_at(work, i);
    let class = binding.path as usize;
    let count = used(number, list, paths, class);
    let own = u16::from(number[class]) - 1;
    put_two_words(tree, at, binding.name, own);
    count
}

// The count bindings from first on, the first of them at `at`; how many paths have a number then.
pub(crate) fn put_bindings(
    work: &[u8],
    first: usize,
    count: usize,
    tree: &mut [u8],
    at: usize,
    number: &mut [u8; PATTERNS_MOST],
    list: &mut [u8; PATTERNS_MOST],
    paths: usize,
) -> usize
    requires { BindingsAsked work.now first count × (at + binding_size * count ≤ length tree.old) × Counted (uses_of number.old list.old paths) }
    ensures { PutBindings work.now first count at (uses_of number.old list.old paths) tree.old tree.new (uses_of number.new list.new result) }
{
    let mut known = paths;
    for i in 0..count {
        known = put_binding(
            work,
            first + i,
            tree,
            at + BINDING_SIZE * i,
            number,
            list,
            known,
        );
    }
    known
}
