// The root of a clause of a laid-out sheet by the start of the clauses: the slice, the start and the number are plain parameters, so
// that no reader is needed to call it.
ghost use Rattle.std.specs.Prelude.{◌≡◌, ◌<◌};
ghost use Rattle.spec_rules.specs.SheetFile.{clauses_at, clauses, root};
ghost use Rattle.spec_accepted.specs.SheetFacts.{Laid};

use base_numbers::sheet::CLAUSE_SIZE;
use base_words::word_at;

#[tactic(auto, unfolding(spec_rules::specs::SheetFile::root))]
pub fn root_in(sheet: &[u8], start: usize, c: usize) -> usize
    requires { Laid sheet.now × (start ≡ clauses_at sheet.now) × (c < clauses sheet.now) }
    ensures { result ≡ root sheet.now c }
{
    word_at(sheet, start + CLAUSE_SIZE * c) as usize
}
