// The records and the parts of a panel whose sections are laid out: each is read once, as a struct or a number by value.
// Each reader asks that the record or the part is there.
ghost use Rattle.std.specs.Prelude.{◌≡◌, ◌<◌};
ghost use Rattle.spec_rules.specs.PanelFile.{records, parts, part};
ghost use Rattle.spec_accepted.specs.PanelFacts.{PanelLaid};
ghost use Rattle.format_panel.specs.Opened.{Opened, record_of};

use crate::PanelMap;
use base_numbers::panel::{PART_SIZE, RECORD_SIZE};
use base_numbers::record_fields;
use base_words::word_at;

// One record of a panel, with its fields as they stand in the file.
#[derive(Clone, Copy)]
pub struct Record {
    pub kind: u8,
    pub zero: u8,
    pub a: usize,
    pub first: usize,
    pub count: usize,
}

// Record r of a panel.
pub fn record_at(panel: &[u8], r: usize) -> Record
    requires { PanelLaid panel.now × (r < records panel.now) }
    ensures { result ≡ record_of panel.now r }
{
    let at = RECORD_SIZE * r;
    Record {
        kind: panel[at],
        zero: panel[at + record_fields::ZERO],
        a: word_at(panel, at + record_fields::A) as usize,
        first: word_at(panel, at + record_fields::FIRST) as usize,
        count: word_at(panel, at + record_fields::COUNT) as usize,
    }
}

// Part j of a panel: the number of a record.
pub fn part_at(panel: &[u8], map: PanelMap, j: usize) -> usize
    requires { Opened panel.now map × (j < parts panel.now) }
    ensures { result ≡ part panel.now j }
{
    word_at(panel, map.parts.start + PART_SIZE * j) as usize
}
