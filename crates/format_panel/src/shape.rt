// Refusal 23 of a panel: its shape, in one pass over the records in order and the parts of each in order. A part's number is
// larger than its owner's, so that when a record is at hand its depth is known, or it is nobody's part. The depths are in one
// buffer that is lent on, 0 for a record that was not met yet; each step answers whether no rule is broken.
ghost use Rattle.std.specs.Prelude.{◌≡◌, List, ℕ, ◌+◌, ◌<◌, ◌≤◌};
ghost use Rattle.spec_rules.specs.PanelFile.{records, parts, panel_pool_size, panel_shape_fits};
ghost use Rattle.format_panel.specs.Opened.{Opened, record_of};
ghost use Rattle.format_panel.specs.Shape.{fields_fit, seen, met, enter_part, enter_parts, enter_record, enter_records};

use crate::PanelMap;
use crate::records::{Record, part_at, record_at};
use base_numbers::panel::{PAIR_PARTS, PANEL_DEPTH_MOST, RECORDS_MOST};
use base_numbers::record_kinds;
use format_parts::sections::run_in;

// The zero byte and the fields of a record by its kind, in a panel of so many parts and so many bytes of text.
fn fields_fit(x: Record, held: usize, pool: usize) -> bool
    ensures { (v : List ℕ) (r : ℕ) → x ≡ record_of v r → held ≡ parts v → pool ≡ panel_pool_size v → result ≡ fields_fit v r }
{
    let Record {
        kind,
        zero,
        a,
        first,
        count,
    } = x;
    zero == 0
        && match kind {
            record_kinds::INTEGER | record_kinds::BYTES => a == 0 && run_in(first, count, pool),
            record_kinds::LIST | record_kinds::TUPLE => a == 0 && run_in(first, count, held),
            record_kinds::PAIR => a == 0 && count == PAIR_PARTS && run_in(first, count, held),
            record_kinds::CONSTRUCTOR => run_in(first, count, held),
            _ => false,
        }
}

// Entry j, in the list of record r: its record is higher than r, met for the first time, and not too deep.
fn enter_part(
    panel: &[u8],
    map: PanelMap,
    depths: &mut [u8; RECORDS_MOST],
    r: usize,
    j: usize,
) -> bool
    requires { Opened panel.now map × (r < records panel.now) × (j < parts panel.now) }
    ensures { seen depths.new result ≡ enter_part panel.now (met depths.old) r j }
{
    let p = part_at(panel, map, j);
    let enters = r < p && p < map.records.count && depths[p] == 0 && depths[r] < PANEL_DEPTH_MOST;
    if enters {
        depths[p] = depths[r] + 1;
    }
    enters
}

// The n entries from j on, in the list of record r.
fn enter_parts(
    panel: &[u8],
    map: PanelMap,
    depths: &mut [u8; RECORDS_MOST],
    r: usize,
    j: usize,
    n: usize,
) -> bool
    requires { Opened panel.now map × (r < records panel.now) × (j + n ≤ parts panel.now) }
    ensures { seen depths.new result ≡ enter_parts panel.now (met depths.old) r j n }
{
    // no `all`: each step writes the depths, and a proof knows nothing of what a closure wrote
    for k in 0..n {
        if !enter_part(panel, map, depths, r, j + k) {
            return false;
        }
    }
    true
}

// Record r: it was met, as the root or as somebody's part; its fields fit; and then its parts.
fn enter_record(panel: &[u8], map: PanelMap, depths: &mut [u8; RECORDS_MOST], r: usize) -> bool
    requires { Opened panel.now map × (r < records panel.now) }
    ensures { seen depths.new result ≡ enter_record panel.now (met depths.old) r }
{
    let x = record_at(panel, r);
    0 < depths[r]
        && fields_fit(x, map.parts.count, map.pool.count)
        && (x.kind < record_kinds::LIST || enter_parts(panel, map, depths, r, x.first, x.count))
}

// The records in order, as long as none breaks a rule.
fn enter_records(panel: &[u8], map: PanelMap, depths: &mut [u8; RECORDS_MOST]) -> bool
    requires { Opened panel.now map }
    ensures { seen depths.new result ≡ enter_records panel.now (met depths.old) 0 (records panel.now) }
{
    // no `all`, as above
    for r in 0..map.records.count {
        if !enter_record(panel, map, depths, r) {
            return false;
        }
    }
    true
}

// 23: every record but the root is one part of a lower record, each part is in one list, and no record is deeper than 32.
pub(crate) fn shape_fits(panel: &[u8], map: PanelMap) -> bool
    requires { Opened panel.now map }
    ensures { result ≡ panel_shape_fits panel.now }
{
    let mut depths = [0u8; RECORDS_MOST];
    depths[0] = 1;
    map.parts.count + 1 == map.records.count && enter_records(panel, map, &mut depths)
}
