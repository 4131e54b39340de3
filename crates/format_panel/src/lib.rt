// The panel of document 01: its check (refusals 21 to 24), the text of a position (33) with the twin that returns the part of the
// panel itself. Each contract is an equation with a definition of the crate spec_rules; the check says besides what its map is.
//
// Cost. The check reads the trailer, each record twice (for its shape and for its text), each part once, and each byte of an integer
// once: at most 512 records, 511 parts and 32,768 bytes of text, whatever the lists of a damaged panel say, since the pass over the
// records ends at the first part that it meets a second time. Besides the panel it needs a table of 512 depths, which is lent on:
// nothing is copied for a record or a part. The text call adds one record to the check, whose kind it reads first.
#![tactic(auto)]

ghost use Rattle.std.specs.Prelude.{◌≡◌, IfOk};
ghost use Rattle.spec_rules.specs.PanelFile.{panel_verdict};
ghost use Rattle.spec_rules.specs.Calls.{has_text, text_call, text_part};
ghost use Rattle.format_parts.specs.Refusals.{verdict_of};
ghost use Rattle.format_panel.specs.Opened.{map_of, Opened};
ghost use Rattle.format_panel.specs.Answers.{span_of};

mod layout;
pub mod records;
mod shape;
mod texts;

use base_numbers::record_kinds;
use format_parts::refusals::{Reason, Refusal, require};
use format_parts::sections::Section;
use layout::{layout_fits, length_fits, map_of};
use records::record_at;
use shape::shape_fits;
use texts::texts_fit;

// Where the sections of a panel stand. The records start at 0.
#[derive(Clone, Copy)]
pub struct PanelMap {
    pub records: Section,
    pub parts: Section,
    pub pool: Section,
}

// The check of a panel: 21 length, 22 layout and count of records, 23 shape, 24 text.
pub fn check(panel: &[u8]) -> Result<PanelMap, Refusal>
    ensures verdict { verdict_of result ≡ panel_verdict panel.now }
    ensures map { IfOk result (λ m. m ≡ map_of panel.now) }
{
    require(length_fits(panel), Reason::PanelLength)?;
    require(layout_fits(panel), Reason::PanelLayout)?;
    let map = map_of(panel);
    require(shape_fits(panel, map), Reason::PanelShape)?;
    require(texts_fit(panel, map), Reason::PanelText)?;
    Ok(map)
}

// The position is an integer or a byte string of the panel, with 0 dropped.
#[tactic(auto, unfolding(spec_rules::specs::Calls::has_text))]
fn has_text(panel: &[u8], map: PanelMap, r: usize, dropped: u16) -> bool
    requires { Opened panel.now map }
    ensures { result ≡ has_text panel.now r dropped }
{
    r < map.records.count && record_at(panel, r).kind <= record_kinds::BYTES && dropped == 0
}

// The text call: where the bytes of an integer or a byte string stand in the panel, or 33.
pub fn text(panel: &[u8], r: u16, dropped: u16) -> Result<Section, Refusal>
    ensures { span_of result ≡ text_call panel.now r dropped }
{
    let map = check(panel)?;
    let at = r as usize;
    require(has_text(panel, map, at, dropped), Reason::NoText)?;
    let x = record_at(panel, at);
    Ok(Section {
        start: map.pool.start + x.first,
        count: x.count,
    })
}

// The twin of the text call: that part of the caller's panel itself, empty if refused.
pub fn text_part<'a>(v: &'a [u8], r: u16, dropped: u16) -> &'a [u8]
    ensures { result.now ≡ text_part v.now r dropped }
{
    let Ok(part) = text(v, r, dropped) else {
        return &v[..0];
    };
    &v[part.start..part.start + part.count]
}
