// The walk of a tree file on a panel: refusals 1, 31, 21 to 24 and 32, or the leaf's clause with its bindings, or No leaf.
// Its cost is the reader's one pass over the tree and one over the panel, then the depth of the tree times the cases met on the way,
// and the steps of the paths. A caller who walks one tree often pays the reader's pass each time: that is some steps for each
// record of the tree, while the walk itself meets few of them.
#![tactic(auto)]

ghost use Rattle.std.specs.Prelude.{◌≡◌, ◌≤◌, length};
ghost use Rattle.base_words.specs.Words.{zeros};
ghost use Rattle.spec_rules.specs.Limits.{bound_room};
ghost use Rattle.spec_rules.specs.Calls.{walk_call};
ghost use Rattle.walk.specs.declared.WalkError.TheVariants.{Refused};
ghost use Rattle.walk.specs.Positions.{ReadyToWalk};
ghost use Rattle.walk.specs.Answers.{call_of, Gives};

use base_numbers::tree::BOUND_ROOM;
use base_words::zero_words;
use bind::bind;
use follow::StuckAt;
use format_panel::PanelMap;
use format_parts::refusals::{Reason, Refusal, require};
use format_tree::layout::TreeMap;
use nodes::{Ended, reach};

mod bind;
mod choose;
mod follow;
mod nodes;

// What a leaf tells: its clause, and how many bindings stand in the buffer.
#[derive(Clone, Copy, PartialEq, Eq)]
pub struct Leaf {
    pub clause: u16,
    pub count: u16,
}

// Why a walk tells nothing: a refusal, or 32, whose place is two numbers.
#[derive(Clone, Copy, PartialEq, Eq)]
pub enum WalkError {
    Refused(Refusal),
    Stuck { node: u16, step: u16 },
}

impl From<Refusal> for WalkError {
    ghost from_gives = { λ r e. e ≡ Refused r };

    fn from(refusal: Refusal) -> WalkError {
        WalkError::Refused(refusal)
    }
}

// On an accepted tree and an accepted panel, and a buffer that is all zero.
fn walk_both(
    tree: &[u8],
    map: TreeMap,
    panel: &[u8],
    places: PanelMap,
    bound: &mut [u16],
) -> Result<Option<Leaf>, WalkError>
    requires { ReadyToWalk tree.now map panel.now places × (bound_room ≤ length bound.old) × (bound.old ≡ zeros (length bound.old)) }
    ensures { Gives tree.now panel.now bound.old bound.new result }
{
    let Ended { node, end } = reach(tree, map, panel, places);
    let node = node as u16;
    let stuck = |at: StuckAt| WalkError::Stuck { node, step: at.0 };
    let Some(leaf) = end.map_err(stuck)? else {
        return Ok(None);
    };
    bind(tree, map, panel, places, leaf.first, leaf.count, bound).map_err(stuck)?;
    Ok(Some(Leaf {
        clause: leaf.clause as u16,
        count: leaf.count as u16,
    }))
}

// The walk call: its answer and every word of the buffer after it, for whatever tree, panel and buffer. No leaf is `None`.
pub fn walk(tree: &[u8], panel: &[u8], bound: &mut [u16]) -> Result<Option<Leaf>, WalkError>
    ensures { call_of result bound.new ≡ walk_call tree.now panel.now (length bound.old) }
{
    zero_words(bound);
    require(bound.len() >= BOUND_ROOM, Reason::Room)?;
    let map = format_tree::check(tree)?;
    let places = format_panel::check(panel)?;
    walk_both(tree, map, panel, places, bound)
}
