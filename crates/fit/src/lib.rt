// The fit check: whether a panel fits the subject type of a sheet, refusals 2 to 11 of the sheet, 21 to 24 of the panel, then 25. Its contract is one
// equation with a definition of the crate spec_rules.
//
// Cost. Beside the two checks, fitting reads each record and each part once, with its type and its type entry; its calls are as deep
// as the panel, at most 32 levels.
#![tactic(auto)]

ghost use Rattle.std.specs.Prelude.{◌≡◌};
ghost use Rattle.spec_rules.specs.Calls.{fit_call};
ghost use Rattle.format_parts.specs.Refusals.{verdict_of};

mod fitting;

use fitting::fits;
use format_parts::refusals::{Reason, Refusal, require};

// The fit check: refusals 2 to 11 of the sheet, 21 to 24 of the panel, then 25.
pub fn fit(sheet: &[u8], panel: &[u8]) -> Result<(), Refusal>
    ensures { verdict_of result ≡ fit_call sheet.now panel.now }
{
    let map = format_sheet::check(sheet)?;
    let places = format_panel::check(panel)?;
    require(fits(sheet, map, panel, places), Reason::PanelMisfit)
}
