// Refusal 24 of a panel: an integer is canonical, and a text has at most 64 bytes.
ghost use Rattle.std.specs.Prelude.{◌≡◌, ◌<◌};
ghost use Rattle.spec_rules.specs.PanelFile.{records, record_text_fits, panel_texts_fit};
ghost use Rattle.spec_accepted.specs.PanelFacts.{PanelShaped};
ghost use Rattle.format_panel.specs.Opened.{Opened};

use crate::PanelMap;
use crate::records::record_at;
use base_numbers::record_kinds;
use base_numbers::sheet::TEXT_MOST;
use format_parts::texts::canonical;

// The text of record r, if it has one.
fn text_fits(panel: &[u8], map: PanelMap, r: usize) -> bool
    requires { Opened panel.now map × PanelShaped panel.now × (r < records panel.now) }
    ensures { result ≡ record_text_fits panel.now r }
{
    let x = record_at(panel, r);
    match x.kind {
        record_kinds::INTEGER => {
            x.count <= TEXT_MOST && canonical(panel, map.pool.start + x.first, x.count)
        }
        record_kinds::BYTES => x.count <= TEXT_MOST,
        _ => true,
    }
}

// 24, of every record.
pub(crate) fn texts_fit(panel: &[u8], map: PanelMap) -> bool
    requires { Opened panel.now map × PanelShaped panel.now }
    ensures { result ≡ panel_texts_fit panel.now }
{
    (0..map.records.count).all(|r| text_fits(panel, map, r))
}
