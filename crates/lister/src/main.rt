// The lister: a sheet on standard input; on standard output the listing of its tree, or `refused NUMBER PLACE`.
// The work is done by the proved calls below the crate app_io.
#![tactic(auto)]

use app_io::SHEET_ROOM;
use std::io;

fn list(rt: &(impl Print + Eprint), sheet: &[u8]) -> io::Result<()> {
    let mut out = app_io::huge_buffer();
    let Some(n) = app_io::list(sheet, &mut out) else {
        return eprintln!(rt; "lister: the listing has no room");
    };
    rt.write_all(&out[..n])
}

fn main(rt: HostRuntime) -> io::Result<()> {
    let mut sheet = [0u8; SHEET_ROOM];
    let Ok(n) = app_io::read_input(&rt, "standard input", &mut rt.stdin(), &mut sheet) else {
        return Ok(());
    };
    list(&rt, &sheet[..n])
}
