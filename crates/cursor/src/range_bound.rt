// Where a walk begins and where it ends (the Rust's iterator/range_bound.rs).
ghost use Rattle.std.specs.Prelude.{◌≡◌, ◌≤◌};
ghost use Rattle.base.specs.Kit.{length};
ghost use Rattle.key.specs.Part.{part};
ghost use Rattle.cursor.specs.RangeBound.{side_of, tested, contains, bound_of};

use std::cmp::Ordering;

// Where a walk begins: above its cursor, or from it on. Its number is that of a walk's record.
#[derive(Clone, Copy, Debug, PartialEq, Eq)]
pub enum StartMode {
    Above = 0,
    From = 1,
}

// A bound as a walk keeps it: kind 0 unbounded, 1 included, 2 excluded, and the first `len` bytes of `key`. The key is an array with a
// length beside, since it crosses the C interface so, and without a heap.
#[derive(Clone, Copy, Debug, PartialEq, Eq)]
pub struct RangeBound {
    // A number and no enum: any u8 may stand here. A walk of kind 3 or more is answered with decline 21, a placing with 12.
    pub kind: u8,
    pub len: usize,
    pub key: [u8; 256],
}

// A bound as the moves take it, lent: its kind, and its key's bytes. (The public calls take the two one by one, as 01 and C name them.)
#[derive(Clone, Copy)]
pub struct End<'a> {
    pub kind: u8,
    pub key: &'a [u8],
}

impl RangeBound {
    pub fn end(&self) -> End<'_>
        requires { self.now.len ≤ 256 }
        ensures kind { result.kind ≡ self.now.kind }
        ensures key { result.key.now ≡ part self.now.key 0 self.now.len }
    {
        End {
            kind: self.kind,
            key: key::part_of(&self.key, 0, self.len),
        }
    }
}

// On which side of a bound a key lies; the included end is a side of its own.
#[derive(Clone, Copy, Debug, PartialEq, Eq)]
pub enum Side {
    Inside,
    AtEnd,
    Past,
}

// The answer of the bound test: the side, and the comparisons it took, of eights and of single bytes.
#[derive(Clone, Copy, Debug, PartialEq, Eq)]
pub struct Tested {
    pub side: Side,
    pub comparisons: usize,
}

// The bound that a placing keeps: an unbounded one keeps no key. Its bound on the length: see key's `padded`.
#[tactic(auto, unfolding(crate::specs::RangeBound::bound_of, base::specs::Pick::pick))]
pub fn bound_of(kind: u8, key: &[u8]) -> RangeBound
    requires { length key.now ≤ 256 }
    ensures { result ≡ bound_of kind key.now }
{
    if kind == 0 {
        return RangeBound {
            kind: 0,
            len: 0,
            key: [0u8; 256],
        };
    }
    RangeBound {
        kind,
        len: key.len(),
        key: key::padded(key),
    }
}

// The side on which a bound of kind 1 or 2 has a key, by the key's order to the bound's.
#[tactic(auto, unfolding(crate::specs::RangeBound::side_of, base::specs::Pick::pick))]
fn side_of(kind: u8, order: Ordering) -> Side
    ensures { result ≡ side_of kind order }
{
    match order {
        Ordering::Less => Side::Inside,
        Ordering::Equal if kind == 1 => Side::AtEnd,
        Ordering::Equal | Ordering::Greater => Side::Past,
    }
}

// The bound test: the key compared with the bound's by eights, and nothing where there is no bound.
#[tactic(auto, unfolding(crate::specs::RangeBound::tested, base::specs::Pick::pick))]
pub fn test(kind: u8, bound: &[u8], key: &[u8]) -> Tested
    ensures { result ≡ tested kind bound.now key.now }
{
    if kind == 0 {
        return Tested {
            side: Side::Inside,
            comparisons: 0,
        };
    }
    let c = key::compare_by_eights(key, bound);
    Tested {
        side: side_of(kind, c.order),
        comparisons: c.comparisons,
    }
}

// Whether a key lies within the bound.
#[tactic(auto, unfolding(crate::specs::RangeBound::contains, crate::specs::RangeBound::is_within))]
pub fn contains(kind: u8, bound: &[u8], key: &[u8]) -> bool
    ensures { result ≡ contains kind bound.now key.now }
{
    matches!(test(kind, bound, key).side, Side::Inside | Side::AtEnd)
}
