// A leaf's permutation (the Rust's permuter.rs): how many slots are used, and which slot stands at a position of their
// order. A position and a slot are kept apart; the permutation alone turns one into the other.
ghost use Rattle.std.specs.Prelude.{◌≡◌, ◌<◌};
ghost use Rattle.node.specs.Permuter.{size_of, slot_at};

// A position in the order of the keys.
#[derive(Clone, Copy, Debug, PartialEq, Eq)]
pub struct Position(pub usize);

// A place in the leaf's arrays. 15 is none of the 15 places: four bits of the image hold it, and who reads one tests it (search's `slot_at`).
#[derive(Clone, Copy, Debug, PartialEq, Eq)]
pub struct Slot(pub usize);

pub fn size(permutation: u64) -> usize
    ensures { result ≡ size_of permutation }
{
    (permutation % 16) as usize
}

// (The position's bound is asked of callers: it is no fact of Position's, since a walk's may be 15.)
#[tactic(auto, unfolding(crate::specs::Permuter::slot_at))]
pub fn get(permutation: u64, p: Position) -> Slot
    requires { p.0 < 15 }
    ensures { result ≡ slot_at permutation p }
{
    Slot(((permutation >> (4 * p.0 + 4)) % 16) as usize)
}
