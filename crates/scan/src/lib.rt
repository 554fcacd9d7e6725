// The steps of a walk over a resting image (the Rust's forward_ctx.rs).
//
// Interface: `step::step`, which takes anything and has no `requires`. `step::count_keys` is the tally's loop, and the loop in forward_ctx
// serves the step of a C record: neither is 01's, and neither is part of the interface.
#![tactic(auto)]

mod along_leaf;
pub mod forward_ctx;
mod scan_ctx;
pub mod step;
