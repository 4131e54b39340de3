// Replays stored answers of the Rust module: the file that the argument names holds sheets, each with the listing of the Rust's
// tree, and what the build and the listing give of each sheet has to be that to the letter. HOW.md says how the file was made.
#![tactic(auto)]

ghost use Rattle.std.specs.Prelude.{◌<◌, ◌≤◌, length, IfSome};

use base_words::word_at;

// The longest file that is replayed.
const FILE_MOST: usize = 1048576;

// A sheet, and the listing of the Rust's tree.
#[derive(Clone, Copy)]
struct Vector<'a> {
    sheet: &'a [u8],
    listing: &'a [u8],
}

// How many vectors there were, how many of them differ, which differed first, counted from 1, and whether the file ends with the
// last of them.
#[derive(Clone, Copy)]
struct Tally {
    vectors: usize,
    differ: usize,
    first: Option<usize>,
    whole: bool,
}

// The first vector, and what stands behind it: the lengths of its sheet and of its listing, a word each, then these two. None where
// the file ends or is cut.
fn first_vector<'a>(all: &'a [u8]) -> Option<(Vector<'a>, &'a [u8])>
    ensures { IfSome result (λ v. length v.1.now < length all.now) }
{
    let (lengths, rest) = all.split_at_checked(4)?;
    let (sheet, rest) = rest.split_at_checked(usize::from(word_at(lengths, 0)))?;
    let (listing, rest) = rest.split_at_checked(usize::from(word_at(lengths, 2)))?;
    Some((Vector { sheet, listing }, rest))
}

// Whether the sheet's listing is the stored one.
fn same(vector: Vector) -> bool {
    let mut out = io::large_buffer();
    let n = app_io::list(vector.sheet, &mut out).unwrap_or(0);
    &out[..n] == vector.listing
}

fn replay(all: &[u8]) -> Tally
    requires { length all.now ≤ 1048576 }
{
    let mut t = Tally {
        vectors: 0,
        differ: 0,
        first: None,
        whole: false,
    };
    let mut rest = all;
    while let Some((vector, others)) = first_vector(rest) {
        t.vectors += 1;
        if !same(vector) {
            t.differ += 1;
            t.first = t.first.or(Some(t.vectors));
        }
        rest = others;
    }
    t.whole = rest.is_empty();
    t
}

// One line.
fn say(rt: &impl Print, t: Tally) -> std::io::Result<()> {
    print!(rt; "{} vectors, {} differ", t.vectors, t.differ)?;
    if let Some(first) = t.first {
        print!(rt; ", the first is number {first}")?;
    }
    if !t.whole {
        print!(rt; ", and the file is cut")?;
    }
    rt.write_all(b"\n")
}

fn replay_file(rt: &(impl Print + Eprint), all: &[u8]) -> std::io::Result<()> {
    if FILE_MOST < all.len() {
        return eprintln!(rt; "vectors: the file is too long");
    }
    say(rt, replay(all))
}

fn main(rt: HostRuntime) -> std::io::Result<()> {
    if app_io::argument_count(&rt) != 2 {
        return eprintln!(rt; "usage: vectors FILE");
    }
    let mut file = app_io::huge_buffer();
    let Ok(n) = app_io::read_argument(&rt, 1, &mut file) else {
        return Ok(());
    };
    replay_file(&rt, &file[..n])
}
