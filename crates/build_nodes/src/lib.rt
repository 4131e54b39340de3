// The tree of a sheet before it is hoisted, built into the arena: rules 3 to 5 of the scope document.
// Rests on the crates build_matrix (the rows and columns at hand), build_cases (the cases of a column), build_leaves (a leaf's bindings) and build_arena.
//
// Cost. A tree can be exponential in its sheet, so building stops at 1,024 nodes. A call on a full arena ends the whole building, and
// so does one whose cases have no room; any other call takes a node number of its own, the leaf's or the switch's. So there are at most
// 1,025 calls. A call costs what its matrix costs: it counts at most 192 columns of 32 rows, meets the cases of one column, each held
// against those of the same switch, and makes one matrix for each child. The arrays of a child's matrix, some 420 bytes, are locals of
// the call that makes it, and are lent; the classes tested are one array for all calls. Calls are at most 193 deep, since each tests
// one column more.
//
// Why it may stop. Each case has a node of its own. So where there is no room for the records of a switch's cases, the tree has more
// than 1,024 nodes, though not all of them are written. The contract says this of any number of nodes that are still to come
// elsewhere; for the whole tree it is that its nodes are more than 1,024, as refusal 12 asks.
#![tactic(auto)]

mod build;
pub mod raw;
pub mod tops;
