// A step of a walk's record.
//
// Interface: `step::step_record`, which asks that a walk can be read of the record's numbers (`record::is_readable`).
#![tactic(auto)]

mod in_place;
pub mod step;
