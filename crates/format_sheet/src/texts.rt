// Refusal 9: an integer is canonical, and a text has at most 64 bytes.
ghost use Rattle.std.specs.Prelude.{◌≡◌, ◌<◌};
ghost use Rattle.spec_rules.specs.SheetFile.{patterns};
ghost use Rattle.spec_rules.specs.SheetRefusals.{bad_text, lowest_bad_text};
ghost use Rattle.spec_accepted.specs.SheetFacts.{Laid, Counted, Shaped};
ghost use Rattle.format_sheet.specs.Sections.{map_of};
ghost use Rattle.spec_rules.specs.Found.{found};

use crate::SheetMap;
use crate::records::pattern_at;
use base_numbers::pattern_kinds;
use base_numbers::sheet::TEXT_MOST;
use format_parts::texts::canonical;

#[tactic(auto, unfolding(spec_rules::specs::SheetRefusals::bad_text, spec_rules::specs::SheetRefusals::text_of_kind, spec_rules::specs::Patterns::pattern_kind_of))]
fn bad_text(sheet: &[u8], map: SheetMap, p: usize) -> bool
    requires { Laid sheet.now × (map ≡ map_of sheet.now) × Shaped sheet.now × (p < patterns sheet.now) }
    ensures { result ≡ bad_text sheet.now p }
{
    let r = pattern_at(sheet, map, p);
    let kind = r.kind;
    match kind {
        pattern_kinds::INTEGER => {
            TEXT_MOST < r.count || !canonical(sheet, map.pool.start + r.first, r.count)
        }
        pattern_kinds::BYTE_STRING => TEXT_MOST < r.count,
        _ => false,
    }
}

// 9.
pub(crate) fn lowest_bad_text(sheet: &[u8], map: SheetMap) -> Option<u16>
    requires { Laid sheet.now × (map ≡ map_of sheet.now) × Counted sheet.now × Shaped sheet.now }
    ensures { result ≡ found (lowest_bad_text sheet.now) }
{
    (0..map.patterns.count)
        .find(|&p| bad_text(sheet, map, p))
        .map(|p| p as u16)
}
