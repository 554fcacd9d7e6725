// Placing a walk (01, "Place a walk"): `place` and its short form take anything.
ghost use Rattle.std.specs.Prelude.{◌≡◌, Ok};
ghost use Rattle.walk.specs.Walk.{new_walk, zero_walk};
ghost use Rattle.walk.specs.Placing.{placing, start_state, fresh_walk, code_of, accepted, place, place_short};

use crate::handed_out;
use crate::scan_state::{EMPTY_CONTEXT, Placed, Walk, WalkState};
use base::{Decline, number_if};
use cursor::cursor_key::CursorKey;
use cursor::range_bound::{RangeBound, StartMode};
use cursor::{cursor_key, range_bound};
use node::permuter::Position;
use node::trailer::{self, Trailer};

// A walk that has made no move.
fn new_walk(
    image_len: usize,
    root: u64,
    cursor: CursorKey,
    bound: RangeBound,
    mode: StartMode,
    state: WalkState,
) -> Walk
    ensures { result ≡ new_walk image_len root cursor bound mode state }
{
    Walk {
        image_len,
        root,
        leaf: 0,
        position: Position(0),
        cursor,
        depth: 0,
        stack: [EMPTY_CONTEXT; 31],
        bound,
        mode,
        state,
        handed: handed_out::nothing_yet(),
    }
}

// The walk of a declined placing: all zero, ended. (Its cursor is from_slice(b"")'s. Tried: that call, the proof did not close: it stands on
// definitions of `key`, which this crate does not name.)
#[tactic(auto, unfolding(crate::specs::Walk::zero_walk, cursor::specs::RangeBound::bound_of, base::specs::Pick::pick))]
fn zero_walk() -> Walk
    ensures { result ≡ zero_walk }
{
    let cursor = CursorKey {
        buf: [0u8; 256],
        offset: 0,
        len: 0,
        ikey: 0,
    };
    let bound = range_bound::bound_of(0, b"");
    new_walk(0, 0, cursor, bound, StartMode::Above, WalkState::Ended)
}

// Why a placing is declined: 01's numbers of it, in their order.
#[tactic(auto, using(std::proofs::lemmas::Bool::Decides::nat_tests), unfolding(crate::specs::Placing::placing, base::specs::Decline::and_then, base::specs::Pick::pick))]
pub fn check_placing(image: &[u8], cursor: &[u8], kind: u8, bound: &[u8]) -> Result<(), Decline>
    ensures { result ≡ placing image.now cursor.now kind bound.now }
{
    trailer::check_heading(image)?;
    if 256 < cursor.len() {
        return Err(Decline::CursorLength);
    }
    if 2 < kind {
        return Err(Decline::BoundKind);
    }
    if 256 < bound.len() {
        return Err(Decline::BoundLength);
    }
    Ok(())
}

// The state of a walk whose cursor has n bytes: past eight Start in both modes.
#[tactic(auto, using(std::proofs::lemmas::Bool::Decides::nat_tests), unfolding(crate::specs::Placing::start_state, base::specs::Pick::pick))]
fn start_state(mode: StartMode, n: usize) -> WalkState
    ensures { result ≡ start_state mode n }
{
    if 8 < n {
        return WalkState::Start;
    }
    match mode {
        StartMode::Above => WalkState::Retry,
        StartMode::From => WalkState::Start,
    }
}

// The walk of a placing that is not declined.
#[tactic(auto, unfolding(crate::specs::Placing::fresh_walk), using(crate::proofs::PlaceLaws::placed_fits))]
fn fresh_walk(image: &[u8], mode: StartMode, cursor: &[u8], kind: u8, bound: &[u8]) -> Walk
    requires { placing image.now cursor.now kind bound.now ≡ Ok tt }
    ensures { result ≡ fresh_walk image.now mode cursor.now kind bound.now }
{
    new_walk(
        image.len(),
        Trailer { image }.root(),
        cursor_key::from_slice(cursor),
        range_bound::bound_of(kind, bound),
        mode,
        start_state(mode, cursor.len()),
    )
}

impl Placed {
    // Its number, 0 where it is not declined.
    #[tactic(auto, unfolding(crate::specs::Placing::code_of))]
    pub fn code(&self) -> u8
        ensures { result ≡ code_of self.now }
    {
        number_if(self.declined)
    }

    // Its walk, or its decline in the place of the all-zero one.
    #[tactic(auto, unfolding(crate::specs::Placing::accepted))]
    pub fn accepted(self) -> Result<Walk, Decline>
        ensures { result ≡ accepted self }
    {
        match self.declined {
            None => Ok(self.walk),
            Some(decline) => Err(decline),
        }
    }
}

// A walk over an image, above a cursor or from it on, up to a bound. Declined with 1, 2, 11, 12 or 13, and then the all-zero walk.
#[tactic(auto, unfolding(crate::specs::Placing::place))]
pub fn place(image: &[u8], mode: StartMode, cursor: &[u8], kind: u8, bound: &[u8]) -> Placed
    ensures { result ≡ place image.now mode cursor.now kind bound.now }
{
    if let Err(decline) = check_placing(image, cursor, kind, bound) {
        return Placed {
            declined: Some(decline),
            walk: zero_walk(),
        };
    }
    Placed {
        declined: None,
        walk: fresh_walk(image, mode, cursor, kind, bound),
    }
}

// The short form: no start mode, and it means from. A key that equals the cursor is handed out too.
#[tactic(auto, unfolding(crate::specs::Placing::place_short))]
pub fn place_short(image: &[u8], cursor: &[u8], kind: u8, bound: &[u8]) -> Placed
    ensures { result ≡ place_short image.now cursor.now kind bound.now }
{
    place(image, StartMode::From, cursor, kind, bound)
}
