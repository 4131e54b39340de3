// The document's numbers for the code, each once and by name: sizes, limits, kinds, the words of a node. Those of refusals stand with
// their reasons in format_parts.
// `Limits` and `Kinds` of spec_rules have the same numbers for the definitions; the proofs hold the two together.
#![tactic(auto)]

pub mod case_kinds;
pub mod node_kinds;
pub mod node_words;
pub mod panel;
pub mod panel_starts;
pub mod pattern_kinds;
pub mod record_fields;
pub mod record_kinds;
pub mod run_fields;
pub mod sheet;
pub mod sheet_starts;
pub mod step_kinds;
pub mod tree;
pub mod tree_fields;
pub mod tree_starts;
pub mod tree_trailer;
pub mod type_fields;
pub mod type_flags;
pub mod type_kinds;

// A number of a file takes two bytes, a byte of the pool one.
pub const WORD_SIZE: usize = 2;

pub const BYTE_SIZE: usize = 1;
