// The listing of a tree file, and the line of a refused sheet, written into a lent buffer.
// Each call's contract gives its answer and every byte of the buffer; what is read rests on the reader of tree files.
#![tactic(auto)]

ghost use Rattle.std.specs.Prelude.{◌≡◌, length};
ghost use Rattle.app_listing.specs.Answers.{call_of, listing_call, line_of, refused_line_call, EndsText};

use base_words::zero_all;
use format_parts::refusals::Refusal;
use format_tree::check;
use lines::{put_listing, put_refused};

pub mod lines;
mod parts;
pub mod texts;

// How many bytes a text has that was written into zeros up to `end`: none, and the buffer zero again, where it has no room.
pub fn written(out: &mut [u8], end: usize) -> Option<usize>
    ensures { EndsText out.old end result out.new }
{
    if out.len() < end {
        zero_all(out);
        return None;
    }
    Some(end)
}

// How many bytes were written: none where the listing has no room. 31 where the file is none that a reader takes.
pub fn listing(tree: &[u8], out: &mut [u8]) -> Result<Option<usize>, Refusal>
    ensures { call_of result out.new ≡ listing_call tree.now (length out.old) }
{
    zero_all(out);
    let map = check(tree)?;
    let end = put_listing(out, tree, map);
    Ok(written(out, end))
}

// How many bytes were written: none where the line has no room.
pub fn refused_line(number: u16, place: u16, out: &mut [u8]) -> Option<usize>
    ensures { line_of result out.new ≡ refused_line_call number place (length out.old) }
{
    zero_all(out);
    let end = put_refused(out, number, place);
    written(out, end)
}
