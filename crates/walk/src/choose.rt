// The case of a run that is chosen by what a part shows. The cases of a run are of one kind, so that a search reads no more of a
// case than what it compares, and answers the case's place; its child is taken from there. Rests on the cases of a tree file.
ghost use Rattle.std.specs.Prelude.{◌≡◌, ℕ, ◌+◌, ◌<◌, ◌≤◌, length};
ghost use Rattle.base_words.specs.Words.{text_at, same_text};
ghost use Rattle.spec_rules.specs.Kinds.{bytes_case, int_case, list_with_tail_case};
ghost use Rattle.spec_rules.specs.Found.{found};
ghost use Rattle.spec_rules.specs.Building.{Tree};
ghost use Rattle.spec_rules.specs.Splitting.{ListWithTail};
ghost use Rattle.spec_rules.specs.TreeReader.{case_kind, case_text, case_child, cases_for};
ghost use Rattle.spec_rules.specs.Walking.{tail_number, largest_tail};
ghost use Rattle.format_tree.specs.Reading.{Mapped, Ruled};
ghost use Rattle.walk.specs.Choices.{asked_by, AllKind, AllText, first_numbered, first_text};

use base_numbers::{case_kinds, record_kinds};
use base_words::same_text;
use format_records::reading::Test;
use format_tree::layout::TreeMap;
use format_tree::reading::{case_child, case_length, case_number};

// A switch asks no length: no record is of this kind.
const NO_RECORD: u8 = record_kinds::CONSTRUCTOR + 1;

// The child of the case at a place: the one step from a case to its child.
pub fn child_of(tree: &[u8], map: TreeMap, place: usize) -> usize
    requires { Mapped tree.now map × (place < map.cases.count) }
    ensures { result ≡ case_child tree.now place }
{
    case_child(tree, map, place) as usize
}

// The kind of record that a switch asks for whose first case has this test.
pub fn asked_by(test: Test) -> u8
    ensures { result ≡ asked_by test }
{
    match test {
        Test::Constr(_) => record_kinds::CONSTRUCTOR,
        Test::Text {
            kind,
            start: _,
            count: _,
        } => if kind == case_kinds::INT {
            record_kinds::INTEGER
        } else {
            record_kinds::BYTES
        },
        Test::List(_) => NO_RECORD,
        Test::Tailed(_) => NO_RECORD,
    }
}

// The first of the n cases from i on that has this number.
pub fn numbered_case(tree: &[u8], map: TreeMap, i: usize, n: usize, number: usize) -> Option<usize>
    requires { Mapped tree.now map × (i + n ≤ map.cases.count) }
    ensures { result ≡ found (first_numbered tree.now number i n) }
{
    (i..i + n).find(|&j| number == case_number(tree, map, j) as usize)
}

// The count bytes of v from i on are a text of the tree's pool, the j-th and following, len of them.
fn texts_same(tree: &[u8], panel: &[u8], i: usize, count: usize, j: usize, len: usize) -> bool
    requires { (i + count ≤ length panel.now) × (j + len ≤ length tree.now) }
    ensures { result ≡ same_text (text_at panel.now i count) (text_at tree.now j len) }
{
    count == len && same_text(panel, i, tree, j, count)
}

// The count bytes of v from i on are the text of case j.
fn is_text(tree: &[u8], map: TreeMap, panel: &[u8], j: usize, i: usize, count: usize) -> bool
    requires { Ruled tree.now map × (j < map.cases.count) × (int_case ≤ case_kind tree.now j) × (case_kind tree.now j ≤ bytes_case) × (i + count ≤ length panel.now) }
    ensures { result ≡ same_text (text_at panel.now i count) (case_text tree.now j) }
{
    let start = case_number(tree, map, j) as usize;
    let len = case_length(tree, map, j) as usize;
    texts_same(tree, panel, i, count, map.pool.start + start, len)
}

// The first of the n cases from i on whose text is the count bytes of v from `start` on.
pub fn text_case(
    tree: &[u8],
    map: TreeMap,
    panel: &[u8],
    i: usize,
    n: usize,
    start: usize,
    count: usize,
) -> Option<usize>
    requires { Ruled tree.now map × (i + n ≤ map.cases.count) × AllText tree.now i n × (start + count ≤ length panel.now) }
    ensures { result ≡ found (first_text tree.now (text_at panel.now start count) i n) }
{
    (i..i + n).find(|&j| is_text(tree, map, panel, j, start, count))
}

// One more than a tail case's number k if that is not above n, else 0.
#[tactic(auto, unfolding(spec_rules::specs::Walking::tail_number))]
fn tail_number(k: usize, n: usize) -> usize
    requires { k ≤ 65535 }
    ensures { result ≡ tail_number n (ListWithTail k) }
{
    if k <= n { k + 1 } else { 0 }
}

// One more than the largest tail number not above n of the `tails` cases from i on; 0 where there is none.
pub fn largest_tail(tree: &[u8], map: TreeMap, i: usize, tails: usize, n: usize) -> usize
    requires { Mapped tree.now map × (i + tails ≤ map.cases.count) × AllKind tree.now list_with_tail_case i tails }
    ensures { (f : ℕ → Tree) → result ≡ largest_tail n (cases_for f tree.now i tails) }
{
    // A `for` is as plain as a fold, and its invariant says what is left of the run.
    let mut best: usize = 0;
    for j in 0..tails {
        let k = case_number(tree, map, i + j) as usize;
        best = best.max(tail_number(k, n));
    }
    best
}
