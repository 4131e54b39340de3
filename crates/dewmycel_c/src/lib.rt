// The exports of the static library: each calls the call of the same name in dewmycel's module face, and promises the same.
// A slice is a pointer and a length; what a caller in C owes is in include/dewmycel.h.
#![tactic(auto)]

ghost use Rattle.std.specs.Prelude.{◌≡◌, length};
ghost use Rattle.spec_rules.specs.Calls.{build_call, fit_call, walk_call, text_call};
ghost use Rattle.dewmycel.specs.Packed.{packed_fit, packed_text};
ghost use Rattle.dewmycel.specs.Face.{BuildFace, WalkFace};

use dewmycel::face;

// Built: bits 16 to 31 are the length of the tree file, 32 to 47 its nodes, 48 to 63 its bindings.
#[unsafe(no_mangle)]
pub extern "C" fn dewmycel_build(sheet: &[u8], tree: &mut [u8], work: &mut [u8]) -> u64
    ensures { BuildFace result tree.new work.new (build_call sheet.now (length tree.old) (length work.old)) }
{
    face::dewmycel_build(sheet, tree, work)
}

// Fits: all 0.
#[unsafe(no_mangle)]
pub extern "C" fn dewmycel_fit(sheet: &[u8], panel: &[u8]) -> u64
    ensures { result ≡ packed_fit (fit_call sheet.now panel.now) }
{
    face::dewmycel_fit(sheet, panel)
}

// At a leaf bit 48 is 1, bits 16 to 31 are the clause, 32 to 47 the number of bindings; No leaf: all 0. Of 32, bits 16 to 31 are
// the node and 32 to 47 the step.
#[unsafe(no_mangle)]
pub extern "C" fn dewmycel_walk(tree: &[u8], panel: &[u8], bound: &mut [u16]) -> u64
    ensures { WalkFace result bound.new (walk_call tree.now panel.now (length bound.old)) }
{
    face::dewmycel_walk(tree, panel, bound)
}

// Bits 16 to 31 are where the text starts in the panel, 32 to 47 its length.
#[unsafe(no_mangle)]
pub extern "C" fn dewmycel_text(panel: &[u8], record: u16, dropped: u16) -> u64
    ensures { result ≡ packed_text (text_call panel.now «record» dropped) }
{
    face::dewmycel_text(panel, record, dropped)
}
