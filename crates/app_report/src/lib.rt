// What the walker says of a sheet and a panel, written into a lent buffer: `leaf CLAUSE`, `no leaf` or `refused NUMBER PLACE`, of 32
// `refused 32 NODE STEP`, then a line for each binding in the leaf's order. The contract of `tell` gives its answer and every byte of the
// buffer.
#![tactic(auto)]

ghost use Rattle.std.specs.Prelude.{◌≡◌, true};
ghost use Rattle.spec_rules.specs.SheetRefusals.{accepted};
ghost use Rattle.spec_rules.specs.PanelFile.{panel_verdict};
ghost use Rattle.spec_rules.specs.TreeReader.{tree_fits, tree_of};
ghost use Rattle.spec_rules.specs.Walking.{walk as walk_of};
ghost use Rattle.spec_rules.specs.Calls.{fit_call};
ghost use Rattle.app_listing.specs.Writing.{Writes};
ghost use Rattle.app_report.specs.Telling.{walked_text, built_text, telling as telling_of};
ghost use Rattle.app_report.specs.Answers.{Tells};

use app_listing::lines::put_refused;
use app_listing::texts::put_text;
use app_listing::written;
use base_numbers::tree::BOUND_ROOM;
use base_words::zero_all;
use lines::{put_leaf, put_stuck};
use walk::WalkError;

mod lines;
mod places;

// Of a tree file and a panel that their readers accept.
fn put_walked(out: &mut [u8], tree: &[u8], panel: &[u8]) -> usize
    requires { (tree_fits tree.now ≡ true) × (panel_verdict panel.now ≡ accepted) }
    ensures { Writes out.old out.new 0 result (walked_text tree.now panel.now (walk_of (tree_of tree.now) panel.now)) }
{
    let mut bound = [0u16; BOUND_ROOM];
    match dewmycel::walk(tree, panel, &mut bound) {
        Ok(Some(leaf)) => put_leaf(out, panel, leaf, &bound),
        Ok(None) => put_text(out, 0, b"no leaf\n"),
        Err(WalkError::Stuck { node, step }) => put_stuck(out, node, step),
        Err(WalkError::Refused(refusal)) => put_refused(
            out,
            refusal.reason.number(),
            refusal.place,
        ),
    }
}

// Of a sheet and a panel that fit each other.
fn put_built(out: &mut [u8], sheet: &[u8], panel: &[u8]) -> usize
    requires { fit_call sheet.now panel.now ≡ accepted }
    ensures { Writes out.old out.new 0 result (built_text sheet.now panel.now) }
{
    let mut tree = io::large_buffer();
    let mut work = io::large_buffer();
    match dewmycel::build(sheet, &mut tree, &mut work) {
        Ok(built) => put_walked(out, &tree[..built.length as usize], panel),
        Err(refusal) => put_refused(out, refusal.reason.number(), refusal.place),
    }
}

fn put_telling(out: &mut [u8], sheet: &[u8], panel: &[u8]) -> usize
    ensures { Writes out.old out.new 0 result (telling_of sheet.now panel.now) }
{
    match dewmycel::fit(sheet, panel) {
        Ok(()) => put_built(out, sheet, panel),
        Err(refusal) => put_refused(out, refusal.reason.number(), refusal.place),
    }
}

// How many bytes were written: none where the text has no room.
pub fn tell(sheet: &[u8], panel: &[u8], out: &mut [u8]) -> Option<usize>
    ensures { Tells sheet.now panel.now out.old result out.new }
{
    zero_all(out);
    let end = put_telling(out, sheet, panel);
    written(out, end)
}
