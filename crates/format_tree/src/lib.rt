// The reader of a tree file: every condition of "A reader asks, else 31", and the reading of its records.
// A check reads each record once, and nodes and cases once more for their order; it takes no memory but a few words. Each condition
// is the rules' definition of its name; what is read of an accepted file rests on the facts of the crate spec_accepted.
#![tactic(auto)]

ghost use Rattle.std.specs.Prelude.{◌≡◌, IfOk};
ghost use Rattle.spec_rules.specs.Calls.{tree_file_verdict};
ghost use Rattle.format_parts.specs.Refusals.{verdict_of};
ghost use Rattle.format_tree.specs.Reading.{map_of, Mapped, records_keep_rules};

use format_parts::refusals::{Reason, Refusal, require};
use layout::{TreeMap, length_true, sections, starts_rise};
use order::nodes_in_pre_order;
use records::{
    bindings_keep_rules, cases_keep_rules, nodes_keep_rules, paths_keep_rules, steps_keep_rules,
};

pub mod layout;
mod order;
pub mod reading;
mod records;

// The records of each section keep their rules.
fn records_keep_rules(tree: &[u8], map: TreeMap) -> bool
    requires { Mapped tree.now map }
    ensures { result ≡ records_keep_rules tree.now }
{
    nodes_keep_rules(tree, map)
        && cases_keep_rules(tree, map)
        && bindings_keep_rules(tree, map)
        && paths_keep_rules(tree, map)
        && steps_keep_rules(tree, map)
}

// The map of a file that keeps every rule, else 31.
pub fn check(tree: &[u8]) -> Result<TreeMap, Refusal>
    ensures verdict { verdict_of result ≡ tree_file_verdict tree.now }
    ensures map { IfOk result (λ m. m ≡ map_of tree.now) }
{
    require(length_true(tree), Reason::Tree)?;
    require(starts_rise(tree), Reason::Tree)?;
    let map = sections(tree);
    require(records_keep_rules(tree, map), Reason::Tree)?;
    require(nodes_in_pre_order(tree, map), Reason::Tree)?;
    Ok(map)
}
