// Searches over any bytes: in a leaf by position, and from a layer's root to a leaf (the Rust's helper.rs and traversal.rs).
//
// Interface: every public function of the two modules. Those that read a leaf take its reader, or a slot's, which holds that the leaf lies
// in the lent image, as `record_at` finds it; whatever else the bytes say is an answer.
#![tactic(auto)]

pub mod helper;
pub mod traversal;
