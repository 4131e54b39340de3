// The bindings of a leaf: each path is followed, and (name, record, dropped) is written, three words a binding.
// Rests on following a path and on stores of words.
ghost use Rattle.std.specs.Prelude.{[], ◌∷◌, ◌≡◌, ◌+◌, ◌*◌, ◌<◌, ◌≤◌, length};
ghost use Rattle.base_words.specs.Stored.{stored};
ghost use Rattle.spec_rules.specs.TreeReader.{bindings, bindings_from};
ghost use Rattle.walk.specs.Positions.{Bindable};
ghost use Rattle.walk.specs.Bindings.{Binds};

use crate::follow::{Found, StuckAt, follow};
use base_numbers::tree::BOUND_WORDS;
use base_words::zero_words;
use format_panel::PanelMap;
use format_tree::layout::TreeMap;
use format_tree::reading::binding_from;

#[tactic(auto, using(crate::specs::BindingsLaws::three_stores))]
fn put_bound(bound: &mut [u16], at: usize, name: u16, record: u16, dropped: u16)
    requires { at + 2 < length bound.old }
    ensures { bound.new ≡ stored bound.old at (name ∷ «record» ∷ dropped ∷ []) }
{
    bound[at] = name;
    bound[at + 1] = record;
    bound[at + 2] = dropped;
}

// The `count` bindings from `first` on, written to the front of the buffer. Where a binding's path is stuck, the buffer is all zero,
// and the answer is the step at which the first such path is.
pub fn bind(
    tree: &[u8],
    map: TreeMap,
    panel: &[u8],
    places: PanelMap,
    first: usize,
    count: usize,
    bound: &mut [u16],
) -> Result<(), StuckAt>
    requires { Bindable tree.now map panel.now places × (first + count ≤ bindings tree.now) × (3 * count ≤ length bound.old) }
    ensures { Binds panel.now (bindings_from tree.now first count) bound.old bound.new result }
{
    for i in 0..count {
        let b = binding_from(tree, map.bindings.start, first + i);
        let found = follow(
            tree,
            map.paths.start,
            map.steps.start,
            panel,
            places,
            b.path as usize,
        );
        let Found::At(p) = found else {
            zero_words(bound);
            return Err(found.stuck());
        };
        put_bound(
            bound,
            BOUND_WORDS * i,
            b.name,
            p.record as u16,
            p.dropped as u16,
        );
    }
    Ok(())
}
