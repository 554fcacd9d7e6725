// The test that stands before every step: 01's number 21.
ghost use Rattle.std.specs.Prelude.{◌≡◌};
ghost use Rattle.walk.specs.Walk.{in_range, walk_ok};

use crate::scan_state::Walk;

// The numbers of a walk that have a range, as a walk or its record has them: each fills them in, and no walk is made of a record for the test.
#[derive(Clone, Copy, Debug, PartialEq, Eq)]
pub struct WalkNumbers {
    pub image_len: usize,
    pub depth: usize,
    pub offset: usize,
    pub len: usize,
    pub position: usize,
    pub kind: usize,
    pub bound_len: usize,
    pub last_depth: usize,
    pub count: usize,
}

impl WalkNumbers {
    // Whether they are in range, over an image of n bytes.
    #[tactic(auto, using(std::proofs::lemmas::Bool::Decides::nat_tests), unfolding(crate::specs::Walk::in_range))]
    pub fn is_in_range(self, n: usize) -> bool
        ensures { result ≡ in_range self n }
    {
        self.image_len == n
            && self.depth <= 31
            && self.offset == 8 * self.depth
            && self.len <= 256 - self.offset
            && self.position <= 15
            && self.kind <= 2
            && self.bound_len <= 256
            && self.last_depth <= 31
            && self.count <= n
    }
}

// Whether a walk's numbers are in range, over an image of n bytes.
#[tactic(auto, unfolding(crate::specs::Walk::walk_ok))]
pub fn is_walk_ok(walk: Walk, n: usize) -> bool
    ensures { result ≡ walk_ok walk n }
{
    let numbers = WalkNumbers {
        image_len: walk.image_len,
        depth: walk.depth,
        offset: walk.cursor.offset,
        len: walk.cursor.len,
        position: walk.position.0,
        kind: usize::from(walk.bound.kind),
        bound_len: walk.bound.len,
        last_depth: walk.handed.depth,
        count: walk.handed.count,
    };
    numbers.is_in_range(n)
}
