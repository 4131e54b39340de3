// The lines of a leaf: its clause, and a line for each binding, `nNAME record R dropped D` and what stands there; and the line of a walk
// that is stuck.
ghost use Rattle.std.specs.Prelude.{◌++◌, ◌*◌, ◌≤◌, length};
ghost use Rattle.app_listing.specs.Writing.{Writes};
ghost use Rattle.app_report.specs.Telling.{leaf_line, binding_line, stuck_line};
ghost use Rattle.app_report.specs.Lines.{word_lines};

use crate::places::put_place;
use app_listing::texts::{put, put_numbered};
use base_numbers::tree::BOUND_WORDS;
use format_parts::refusals::Reason;
use walk::Leaf;

fn put_binding(out: &mut [u8], at: usize, panel: &[u8], name: u16, r: u16, dropped: u16) -> usize
    ensures { Writes out.old out.new at result (binding_line panel.now name r dropped) }
{
    let name_end = put_numbered(out, at, b"n", name);
    let record_end = put_numbered(out, name_end, b" record ", r);
    let dropped_end = put_numbered(out, record_end, b" dropped ", dropped);
    let end = put_place(out, dropped_end, panel, r, dropped);
    put(out, end, b'\n')
}

// The n bindings at the front of the buffer, three words each.
fn put_bindings(out: &mut [u8], at: usize, panel: &[u8], bound: &[u16], n: usize) -> usize
    requires { 3 * n ≤ length bound.now }
    ensures { Writes out.old out.new at result (word_lines panel.now bound.now 0 n) }
{
    let mut end = at;
    for k in 0..n {
        let i = BOUND_WORDS * k;
        end = put_binding(out, end, panel, bound[i], bound[i + 1], bound[i + 2]);
    }
    end
}

pub fn put_leaf(out: &mut [u8], panel: &[u8], leaf: Leaf, bound: &[u16]) -> usize
    requires { 3 * leaf.count ≤ length bound.now }
    ensures { Writes out.old out.new 0 result (leaf_line leaf.clause ++ word_lines panel.now bound.now 0 leaf.count) }
{
    let number = put_numbered(out, 0, b"leaf ", leaf.clause);
    let line = put(out, number, b'\n');
    put_bindings(out, line, panel, bound, leaf.count as usize)
}

// `refused 32 NODE STEP`.
pub fn put_stuck(out: &mut [u8], node: u16, step: u16) -> usize
    ensures { Writes out.old out.new 0 result (stuck_line node step) }
{
    let number = put_numbered(out, 0, b"refused ", Reason::Stuck.number());
    let node_end = put_numbered(out, number, b" ", node);
    let step_end = put_numbered(out, node_end, b" ", step);
    put(out, step_end, b'\n')
}
