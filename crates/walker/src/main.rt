// The walker: a sheet file and a panel file as arguments. On standard output it says which clause the panel takes and what its names are
// bound to, or `refused NUMBER PLACE`. The work is done by the proved calls of the crate app_report.
#![tactic(auto)]

use app_io::{PANEL_ROOM, SHEET_ROOM};
use std::env::Env;
use std::rt::Files;

// The buffer has room for every text (`every_text_has_room` of the crate app_report).
fn walk_panel(rt: &(impl Print + Eprint), sheet: &[u8], panel: &[u8]) -> std::io::Result<()> {
    let mut out = io::large_buffer();
    let Some(n) = app_report::tell(sheet, panel, &mut out) else {
        return eprintln!(rt; "walker: the text has no room");
    };
    rt.write_all(&out[..n])
}

// The panel is read once the sheet was.
fn walk_sheet<R: Env + Files + Print + Eprint>(rt: &R, sheet: &[u8]) -> std::io::Result<()> {
    let mut panel = [0u8; PANEL_ROOM];
    let Ok(n) = app_io::read_argument(rt, 2, &mut panel) else {
        return Ok(());
    };
    walk_panel(rt, sheet, &panel[..n])
}

fn main(rt: HostRuntime) -> std::io::Result<()> {
    if app_io::argument_count(&rt) != 3 {
        return eprintln!(rt; "usage: walker SHEET PANEL");
    }
    let mut sheet = [0u8; SHEET_ROOM];
    let Ok(n) = app_io::read_argument(&rt, 1, &mut sheet) else {
        return Ok(());
    };
    walk_sheet(&rt, &sheet[..n])
}
