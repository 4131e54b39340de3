// Sections of whole records, and runs of records inside a section.
// On plain numbers, but for the starts, which a file's trailer has.
ghost use Rattle.std.specs.Prelude.{◌≡◌, ◌+◌, ◌-◌, ◌*◌, ◌<◌, ◌≤◌, length};
ghost use Rattle.base_words.specs.Words.{word_at};
ghost use Rattle.spec_rules.specs.SheetFile.{run_in};
ghost use Rattle.spec_rules.specs.SheetRefusals.{whole_records};
ghost use Rattle.spec_rules.specs.TreeFile.{first_of};
ghost use Rattle.format_parts.specs.Sections.{section_of};

use base_numbers::WORD_SIZE;
use base_words::word_at;

// Where a section starts, and how many records it has; of a pool, how many bytes.
#[derive(Clone, Copy)]
pub struct Section {
    pub start: usize,
    pub count: usize,
}

// Start k of the trailer of so many bytes that a file ends with.
pub fn start(file: &[u8], trailer: usize, k: usize) -> usize
    requires { (trailer ≤ length file.now) × (2 * k + 2 ≤ trailer) }
    ensures { result ≡ word_at file.now (length file.now - trailer + 2 * k) }
{
    word_at(file, file.len() - trailer + WORD_SIZE * k) as usize
}

// From `from` to `to` there are whole records of `size` bytes.
#[tactic(auto, unfolding(spec_rules::specs::SheetRefusals::whole_records))]
pub fn whole_records(size: usize, from: usize, to: usize) -> bool
    requires { 0 < size }
    ensures { result ≡ whole_records size from to }
{
    from <= to && (to - from) % size == 0
}

pub fn section_of(start: usize, end: usize, size: usize) -> Section
    requires { (start ≤ end) × (0 < size) }
    ensures { result ≡ section_of start end size }
{
    Section {
        start,
        count: (end - start) / size,
    }
}

// `count` records from `first` on lie in a section of n, and where count is 0, first is.
#[tactic(auto, unfolding(spec_rules::specs::SheetFile::run_in))]
pub fn run_in(first: usize, count: usize, n: usize) -> bool
    ensures { result ≡ run_in first count n }
{
    // by the count first: as one condition of three it was compiled to more instructions, which a reader's passes pay for each record
    if count == 0 {
        first == 0
    } else {
        count <= n && first <= n - count
    }
}

// Where a run of so many records begins: an empty one at 0.
#[tactic(auto, using(crate::specs::SectionsLaws::first_laws))]
pub fn first_of(count: u16, first: u16) -> u16
    ensures { result ≡ first_of count first }
{
    if count == 0 { 0 } else { first }
}
