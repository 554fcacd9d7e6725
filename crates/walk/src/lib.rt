// A walk between calls (the Rust's scan_state.rs): its record, its placing, the test of its numbers, what it has handed out, and what a
// step's answer says.
//
// Interface: `placing::place` and `placing::place_short`, which take anything, `placing::check_placing` and `Placed::code`; the types of
// scan_state; `walk_ok::is_walk_ok` and `WalkNumbers::is_in_range`; and answer's two functions, which take a decline of any type (for its
// number, one that converts to a u8). None has a `requires`. Those of handed_out are the step's.
#![tactic(auto)]

pub mod answer;
pub mod handed_out;
pub mod placing;
pub mod scan_state;
pub mod walk_ok;
