// The build call: the tree of a sheet, written as its file, or the refusal; refusals 1, 2 to 11, 12 to 14 of document 01.
// Its contract says its one answer and every byte of both buffers, for every byte string and every pair of buffers.
#![tactic(auto)]

ghost use Rattle.std.specs.Prelude.{◌≡◌, length};
ghost use Rattle.base_words.specs.Words.{zeros};
ghost use Rattle.spec_rules.specs.Calls.{build_call};
ghost use Rattle.build_call.specs.Answers.{call_of};
ghost use Rattle.build_call.specs.Promises.{GivesAnswer};

use base_numbers::tree::{TREE_ROOM, WORK_ROOM};
use base_words::zero_all;
use format_parts::refusals::{Reason, Refusal, require};
use format_sheet::check;
use trees::build_tree;

mod counts;
mod trees;

// The tree that is written: the length of its file, and how many nodes and bindings it has.
#[derive(Clone, Copy)]
pub struct BuiltTree {
    pub length: u16,
    pub nodes: u16,
    pub bindings: u16,
}

// On a tree buffer that is all zero: it is written only where nothing is refused.
fn build_clear(sheet: &[u8], tree: &mut [u8], work: &mut [u8]) -> Result<BuiltTree, Refusal>
    requires { tree.old ≡ zeros (length tree.old) }
    ensures { GivesAnswer sheet.now tree.old tree.new work.old result }
{
    let room = TREE_ROOM <= tree.len() && WORK_ROOM <= work.len();
    require(room, Reason::Room)?;
    let map = check(sheet)?;
    build_tree(sheet, map, tree, work)
}

// The build call, whole.
pub fn build(sheet: &[u8], tree: &mut [u8], work: &mut [u8]) -> Result<BuiltTree, Refusal>
    ensures { call_of result tree.new work.new ≡ build_call sheet.now (length tree.old) (length work.old) }
{
    zero_all(tree);
    let built = build_clear(sheet, tree, work);
    zero_all(work);
    built
}
