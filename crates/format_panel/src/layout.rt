// Refusals 21 and 22 of a panel: its length, the layout of its sections, and how many records it has.
// Only the trailer is read here.
ghost use Rattle.std.specs.Prelude.{◌≡◌, ◌≤◌, length};
ghost use Rattle.spec_rules.specs.Limits.{panel_trailer};
ghost use Rattle.spec_rules.specs.PanelFile.{panel_length_fits, panel_layout_fits};
ghost use Rattle.spec_accepted.specs.PanelFacts.{PanelLaid};
ghost use Rattle.format_panel.specs.Opened.{map_of};

use crate::PanelMap;
use base_numbers::panel::{
    PANEL_LENGTH_BACK, PANEL_MOST, PANEL_TRAILER, PART_SIZE, RECORD_SIZE, RECORDS_MOST,
};
use base_numbers::{BYTE_SIZE, panel_starts};
use base_words::word_at;
use format_parts::sections::{section_of, start, whole_records};

// 21: from 8 to 16,384 bytes, and the trailer's length is the panel's.
#[tactic(auto, unfolding(spec_rules::specs::PanelFile::panel_length_fits, spec_rules::specs::PanelFile::panel_length))]
pub(crate) fn length_fits(panel: &[u8]) -> bool
    ensures { result ≡ panel_length_fits panel.now }
{
    let n = panel.len();
    PANEL_TRAILER <= n && n <= PANEL_MOST && word_at(panel, n - PANEL_LENGTH_BACK) as usize == n
}

// 22: the starts rise from 0, pass not the trailer and cut no record; there are 1 to 512 records.
#[tactic(auto, using(crate::specs::LayoutLaws::layout_read))]
pub(crate) fn layout_fits(panel: &[u8]) -> bool
    requires { panel_trailer ≤ length panel.now }
    ensures { result ≡ panel_layout_fits panel.now }
{
    let records_at = start(panel, PANEL_TRAILER, panel_starts::RECORDS);
    let parts_at = start(panel, PANEL_TRAILER, panel_starts::PARTS);
    let pool_at = start(panel, PANEL_TRAILER, panel_starts::POOL);
    records_at == 0
        && whole_records(RECORD_SIZE, records_at, parts_at)
        && whole_records(PART_SIZE, parts_at, pool_at)
        && whole_records(BYTE_SIZE, pool_at, panel.len() - PANEL_TRAILER)
        && 1 <= parts_at / RECORD_SIZE
        && parts_at / RECORD_SIZE <= RECORDS_MOST
}

// The sections of a panel whose layout fits.
pub(crate) fn map_of(panel: &[u8]) -> PanelMap
    requires { PanelLaid panel.now }
    ensures { result ≡ map_of panel.now }
{
    let records_at = start(panel, PANEL_TRAILER, panel_starts::RECORDS);
    let parts_at = start(panel, PANEL_TRAILER, panel_starts::PARTS);
    let pool_at = start(panel, PANEL_TRAILER, panel_starts::POOL);
    PanelMap {
        records: section_of(records_at, parts_at, RECORD_SIZE),
        parts: section_of(parts_at, pool_at, PART_SIZE),
        pool: section_of(pool_at, panel.len() - PANEL_TRAILER, BYTE_SIZE),
    }
}
