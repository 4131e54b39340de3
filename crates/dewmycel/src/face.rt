// The calls for C: each answer in one u64. Bits 0 to 15 are the refusal number, 0 for none; of a refusal bits 16 to 31 are its place, and
// the rest is 0 but of 32, which has two numbers for its place.
// The crate dewmycel_c exports them.
ghost use Rattle.std.specs.Prelude.{◌≡◌, length};
ghost use Rattle.spec_rules.specs.Calls.{build_call, fit_call, walk_call, text_call};
ghost use Rattle.format_parts.specs.Refusals.{number_of};
ghost use Rattle.dewmycel.specs.Packed.{packed, packed_fit, packed_text};
ghost use Rattle.dewmycel.specs.Face.{BuildFace, WalkFace};

use format_parts::refusals::{Reason, Refusal};
use walk::WalkError;

// Four words in one, the first lowest.
#[tactic(auto, unfolding(crate::specs::Packed::packed))]
fn pack(a: u16, b: u16, c: u16, d: u16) -> u64
    ensures { result ≡ packed a b c d }
{
    a as u64 + 65536 * (b as u64) + 4294967296 * (c as u64) + 281474976710656 * (d as u64)
}

// The number of a refusal and its place.
fn pack_refusal(refusal: Refusal) -> u64
    ensures { result ≡ packed (number_of refusal.reason) refusal.place 0 0 }
{
    pack(refusal.reason.number(), refusal.place, 0, 0)
}

// Built: bits 16 to 31 are the length of the tree file, 32 to 47 its nodes, 48 to 63 its bindings.
pub fn dewmycel_build(sheet: &[u8], tree: &mut [u8], work: &mut [u8]) -> u64
    ensures { BuildFace result tree.new work.new (build_call sheet.now (length tree.old) (length work.old)) }
{
    match crate::build(sheet, tree, work) {
        Ok(built) => pack(0, built.length, built.nodes, built.bindings),
        Err(refusal) => pack_refusal(refusal),
    }
}

// Fits: all 0.
pub fn dewmycel_fit(sheet: &[u8], panel: &[u8]) -> u64
    ensures { result ≡ packed_fit (fit_call sheet.now panel.now) }
{
    match crate::fit(sheet, panel) {
        Ok(()) => 0,
        Err(refusal) => pack_refusal(refusal),
    }
}

// At a leaf bit 48 is 1, bits 16 to 31 are the clause, 32 to 47 the number of bindings; No leaf: all 0. Of 32, bits 16 to 31 are
// the node and 32 to 47 the step.
pub fn dewmycel_walk(tree: &[u8], panel: &[u8], bound: &mut [u16]) -> u64
    ensures { WalkFace result bound.new (walk_call tree.now panel.now (length bound.old)) }
{
    match crate::walk(tree, panel, bound) {
        Ok(Some(leaf)) => pack(0, leaf.clause, leaf.count, 1),
        Ok(None) => 0,
        Err(WalkError::Stuck { node, step }) => pack(Reason::Stuck.number(), node, step, 0),
        Err(WalkError::Refused(refusal)) => pack_refusal(refusal),
    }
}

// Bits 16 to 31 are where the text starts in the panel, 32 to 47 its length.
pub fn dewmycel_text(panel: &[u8], record: u16, dropped: u16) -> u64
    ensures { result ≡ packed_text (text_call panel.now «record» dropped) }
{
    match crate::text(panel, record, dropped) {
        Ok(part) => pack(0, part.start as u16, part.count as u16, 0),
        Err(refusal) => pack_refusal(refusal),
    }
}
