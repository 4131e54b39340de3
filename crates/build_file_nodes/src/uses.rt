// Path numbers by first use. A path is known by its class, a number below 192 that it shares with no other path.
// One look into a table of bytes by class answers whether a path has a number, and which. The tables are lent, so nothing is copied.
ghost use Rattle.std.specs.Prelude.{◌≡◌, ◌<◌};
ghost use Rattle.spec_rules.specs.Limits.{patterns_most};
ghost use Rattle.build_file_nodes.specs.Uses.{uses_of, Counted, with_class};

use base_numbers::sheet::PATTERNS_MOST;

// The path of the class used once more, where `count` paths have a number; how many have one then. `number` has by class one more
// than the number of its path, or 0 where it has none; `list` has the classes in the order of their numbers.
#[tactic(auto, unfolding(crate::specs::Uses::with_class))]
pub(crate) fn used(
    number: &mut [u8; PATTERNS_MOST],
    list: &mut [u8; PATTERNS_MOST],
    count: usize,
    class: usize,
) -> usize
    requires { Counted (uses_of number.old list.old count) × (class < patterns_most) }
    ensures { uses_of number.new list.new result ≡ with_class (uses_of number.old list.old count) class }
{
    if number[class] != 0 {
        return count;
    }
    let more = count + 1;
    number[class] = more as u8;
    list[count] = class as u8;
    more
}
