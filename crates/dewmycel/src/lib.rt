// The calls of document 01. None asks anything of its caller; each contract is one promise of specs/Promises.antt, which gives the one answer
// and every byte of every writable buffer after it, on refused input too. The module face has the same calls for C, each answer in one word.
#![tactic(auto)]

pub mod face;

ghost use Rattle.std.specs.Prelude.{length};
ghost use Rattle.dewmycel.specs.Promises.{BuildFits, FitFits, WalkFits, TextFits, PartFits};

use build_call::BuiltTree;
use format_parts::refusals::Refusal;
use format_parts::sections::Section;
use walk::{Leaf, WalkError};

// The tree of a sheet, written as its file: refusals 1, 2 to 11, 12 to 14; else the file's length, its nodes and its bindings.
pub fn build(sheet: &[u8], tree: &mut [u8], work: &mut [u8]) -> Result<BuiltTree, Refusal>
    ensures { BuildFits sheet.now (length tree.old) (length work.old) result tree.new work.new }
{
    build_call::build(sheet, tree, work)
}

// The fit check of a sheet and a panel: refusals 2 to 11, 21 to 24, 25.
pub fn fit(sheet: &[u8], panel: &[u8]) -> Result<(), Refusal>
    ensures { FitFits sheet.now panel.now result }
{
    fit::fit(sheet, panel)
}

// The walk of a tree on a panel: refusals 1, 31, 21 to 24, 32 with its node and step; at a leaf its clause, and (name, record, dropped)
// for each binding; `None` is No leaf.
pub fn walk(tree: &[u8], panel: &[u8], bound: &mut [u16]) -> Result<Option<Leaf>, WalkError>
    ensures { WalkFits tree.now panel.now (length bound.old) result bound.new }
{
    walk::walk(tree, panel, bound)
}

// The text of a position: refusals 21 to 24, 33; where its bytes stand in the panel.
pub fn text(panel: &[u8], record: u16, dropped: u16) -> Result<Section, Refusal>
    ensures { TextFits panel.now «record» dropped result }
{
    format_panel::text(panel, record, dropped)
}

// The twin of text: that part of the caller's panel itself, empty if refused.
pub fn text_part<'a>(panel: &'a [u8], record: u16, dropped: u16) -> &'a [u8]
    ensures { PartFits panel.now «record» dropped result.now }
{
    format_panel::text_part(panel, record, dropped)
}
