// A walk and the record in which it crosses to C.
//
// Interface: layout, which has the place of each number of a record; record, which writes and reads one. A record's lengths are those of
// its types; `is_readable` tests its numbers.
#![tactic(auto)]

pub mod layout;
pub mod record;
