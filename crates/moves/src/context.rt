// What goes from move to move (the Rust's scan_state.rs, and its ForwardScanCtx without the buffer and the layer stack, which the loop
// holds), and what a move comes to.
ghost use Rattle.std.specs.Prelude.{◌≡◌, ◌≤◌};
ghost use Rattle.moves.specs.Moves.{in_layer, standing, onward};

use cursor::cursor_key::CursorPlace;
use cursor::range_bound::StartMode;
use node::permuter::Position;

// What the loop does next: the Rust's states without Emit, and Start, which goes by the walk's start mode.
#[derive(Clone, Copy)]
pub enum ScanState {
    Start(StartMode),
    Retry,
    FindNext,
    Down,
    Up,
}

// `depth` is how many of the stack's entries are in use; `last` is the Rust's last_ikey, 0 where there is none: no ikey is below that, so
// that no test would open an Option. `dup` is the Rust's needs_duplicate_check, which stands beside its state too: Down, Retry and Up set it,
// and Start leaves it as it came. As a field of FindNext it would be no plainer: only `duplicate_due` and scan's `is_along` ask for it, and all
// else that is said of a walk in FindNext, by the loop, the step and their laws, would then have to name a flag that it does not go by.
#[derive(Clone, Copy)]
pub struct ScanCtx {
    pub root: u64,
    pub leaf: u64,
    pub position: Position,
    pub cursor: CursorPlace,
    pub depth: usize,
    pub state: ScanState,
    pub last: u64,
    pub dup: bool,
}

// What a move comes to: the loop goes on; a layer is entered, whose root is given; a key is out, with its value, and it is the last where it
// is the included end; the walk is at its end. A move that cannot read the image is declined.
#[derive(Clone, Copy, Debug, PartialEq, Eq)]
pub enum Outcome {
    Continue,
    Push(u64),
    Emit { value: u64, last: bool },
    Exhausted,
}

// One move.
#[derive(Clone, Copy)]
pub struct Pass {
    pub outcome: Outcome,
    pub ctx: ScanCtx,
}

// What the loop changes where it enters a layer or leaves one.
pub fn in_layer(c: ScanCtx, root: u64, leaf: u64, depth: usize) -> ScanCtx
    ensures { result ≡ in_layer c root leaf depth }
{
    ScanCtx {
        root,
        leaf,
        depth,
        ..c
    }
}

// The walk stands where a search came to, to find what is there: each argument is a field that this sets.
#[tactic(auto, unfolding(crate::specs::Moves::standing))]
pub fn stand(
    c: ScanCtx,
    leaf: u64,
    cursor: CursorPlace,
    dup: bool,
    last: u64,
    position: Position,
) -> Pass
    ensures { result ≡ standing c leaf cursor dup last position }
{
    Pass {
        outcome: Outcome::Continue,
        ctx: ScanCtx {
            leaf,
            position,
            cursor,
            state: ScanState::FindNext,
            last,
            dup,
            ..c
        },
    }
}

// The walk one position on, with the key that the cursor has come to.
#[tactic(auto, unfolding(crate::specs::Moves::onward))]
pub fn go_on(c: ScanCtx, cursor: CursorPlace, last: u64) -> ScanCtx
    requires { c.position.0 ≤ 15 }
    ensures { result ≡ onward c cursor last }
{
    ScanCtx {
        position: Position(c.position.0 + 1),
        cursor,
        state: ScanState::FindNext,
        last,
        dup: false,
        ..c
    }
}
