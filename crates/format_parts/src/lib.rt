// What the files share: sections of whole records, runs inside a section, and the text of an integer.
// All three files are made of these, so that each check stands on this crate; nothing here knows what a record is of.
#![tactic(auto)]

pub mod refusals;
pub mod sections;
pub mod texts;
