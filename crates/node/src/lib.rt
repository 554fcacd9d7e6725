// The fields of an image: little-endian numbers, version bits, the permutation, leaf, internode and trailer fields, and
// the search in an internode (the Rust's nodeversion.rs, permuter.rs, leaf15/layout.rs, internode/accessors.rs and
// ksearch/scalar.rs).
//
// Interface: every public function of the modules below. A reader of a field asks that the record it reads lies in the
// lent slice; each result is fixed by a definition of specs/.
#![tactic(auto)]

pub mod internode;
pub mod ksearch;
pub mod le;
pub mod leaf;
pub mod nodeversion;
pub mod permuter;
pub mod trailer;
