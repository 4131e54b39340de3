// What stands at a position of a panel: an integer's digits, a byte string in hex, what is left of a list, a pair, how many parts a tuple has,
// a constructor's number. Nothing where there is no panel, no such record, or less in a list than was dropped.
ghost use Rattle.std.specs.Prelude.{◌≡◌, ◌++◌};
ghost use Rattle.spec_rules.specs.Listing.{hex};
ghost use Rattle.spec_rules.specs.Calls.{text_part};
ghost use Rattle.format_panel.specs.Opened.{record_of};
ghost use Rattle.app_listing.specs.Writing.{Writes};
ghost use Rattle.app_report.specs.Telling.{int_word, bytes_word, list_text, record_text, place_text};

use app_listing::texts::{put_hex, put_numbered, put_text};
use base_numbers::record_kinds;
use format_panel::records::{Record, record_at};

fn put_int(out: &mut [u8], at: usize, panel: &[u8], r: u16, dropped: u16) -> usize
    ensures { Writes out.old out.new at result (int_word ++ text_part panel.now r dropped) }
{
    let end = put_text(out, at, b" int ");
    put_text(out, end, dewmycel::text_part(panel, r, dropped))
}

fn put_bytes(out: &mut [u8], at: usize, panel: &[u8], r: u16, dropped: u16) -> usize
    ensures { Writes out.old out.new at result (bytes_word ++ hex (text_part panel.now r dropped)) }
{
    let end = put_text(out, at, b" bytes ");
    put_hex(out, end, dewmycel::text_part(panel, r, dropped))
}

// A list's length is what is left of it.
fn put_list(out: &mut [u8], at: usize, count: u16, dropped: u16) -> usize
    ensures { Writes out.old out.new at result (list_text count dropped) }
{
    if count < dropped {
        return at;
    }
    put_numbered(out, at, b" list ", count - dropped)
}

// Record x, which is record r of the panel.
fn put_record(out: &mut [u8], at: usize, panel: &[u8], x: Record, r: u16, dropped: u16) -> usize
    requires { x ≡ record_of panel.now r }
    ensures { Writes out.old out.new at result (record_text panel.now r dropped) }
{
    let kind = x.kind;
    match kind {
        record_kinds::INTEGER => put_int(out, at, panel, r, dropped),
        record_kinds::BYTES => put_bytes(out, at, panel, r, dropped),
        record_kinds::LIST => put_list(out, at, x.count as u16, dropped),
        record_kinds::PAIR => put_text(out, at, b" pair"),
        record_kinds::TUPLE => put_numbered(out, at, b" tuple ", x.count as u16),
        record_kinds::CONSTRUCTOR => put_numbered(out, at, b" constr ", x.a as u16),
        _ => at,
    }
}

pub fn put_place(out: &mut [u8], at: usize, panel: &[u8], r: u16, dropped: u16) -> usize
    ensures { Writes out.old out.new at result (place_text panel.now r dropped) }
{
    let Ok(map) = format_panel::check(panel) else {
        return at;
    };
    let i = r as usize;
    if map.records.count <= i {
        return at;
    }
    let x = record_at(panel, i);
    put_record(out, at, panel, x, r, dropped)
}
