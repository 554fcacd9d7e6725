// The walk's cursor and its bound (the Rust's cursor_key.rs and range_bound.rs).
//
// Interface: every public function of the two modules. Their `requires`, and the fact that a `CursorReader` holds, ask what a walk's ranges
// (01's number 21) give: offset and length within the buffer of 256 bytes.
#![tactic(auto)]

pub mod cursor_key;
pub mod range_bound;
