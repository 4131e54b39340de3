// How far a tree is built: how many nodes, cases and bindings the arena has, and which clauses have a leaf.
// A tree with more than 1,024 nodes has none.
use base_numbers::sheet::CLAUSES_MOST;

// Where there are more bindings than there is room for, their number is told as one more than the room.
// `leaves` has 1 for each clause with a leaf.
#[derive(Clone, Copy)]
pub struct Tops {
    pub nodes: usize,
    pub cases: usize,
    pub bindings: usize,
    pub leaves: [u8; CLAUSES_MOST],
}
