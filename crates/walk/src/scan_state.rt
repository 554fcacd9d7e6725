// What a walk keeps between calls, and what its calls answer (the Rust's scan_state.rs).
use base::Decline;
use cursor::cursor_key::CursorKey;
use cursor::range_bound::{RangeBound, StartMode};
use node::permuter::Position;

// A layer that the walk has entered: the root and the leaf of the layer above.
#[derive(Clone, Copy, Debug, PartialEq, Eq)]
pub struct LayerContext {
    pub root: u64,
    pub leaf: u64,
}

// What the stack holds past its last entry.
pub const EMPTY_CONTEXT: LayerContext = LayerContext { root: 0, leaf: 0 };

// A walk's state between calls. Its number is that of a walk's record.
#[derive(Clone, Copy, Debug, PartialEq, Eq)]
pub enum WalkState {
    Start = 0,
    Retry = 1,
    FindNext = 2,
    Ended = 3,
}

// What a walk has handed out: the depth at which the last key was found, and how many keys; zeros before the first.
#[derive(Clone, Copy, Debug, PartialEq, Eq)]
pub struct HandedOut {
    pub depth: usize,
    pub count: usize,
}

// A walk between calls. (Its stack is an array with the depth beside: there is no heap, and C's record has it so.)
#[derive(Clone, Copy)]
pub struct Walk {
    pub image_len: usize,
    pub root: u64,
    pub leaf: u64,
    pub position: Position,
    pub cursor: CursorKey,
    pub depth: usize,
    pub stack: [LayerContext; 31],
    pub bound: RangeBound,
    pub mode: StartMode,
    pub state: WalkState,
    pub handed: HandedOut,
}

// A placing: why it is declined, if it is, and the walk. No Result: a declined placing has a walk too, the all-zero one.
#[derive(Clone, Copy)]
pub struct Placed {
    pub declined: Option<Decline>,
    pub walk: Walk,
}

// A key that is out: its bytes are the first `len` of the walk's buffer.
#[derive(Clone, Copy, Debug, PartialEq, Eq)]
pub struct KeyOut {
    pub len: usize,
    pub value: u64,
}

// A step's answer: a key or none, where the step is not declined.
pub type Answer = Result<Option<KeyOut>, Decline>;

// A step: its answer, its moves, what the walk has handed out with it (zeros where the step is declined), and the walk after it. (No Result:
// a declined step gives the walk back as it came.) Why it is declined may be of any type, as a caller that keeps a number has it.
#[derive(Clone, Copy)]
pub struct StepOf<E> {
    pub answer: Result<Option<KeyOut>, E>,
    pub moves: usize,
    pub handed: HandedOut,
    pub walk: Walk,
}

// A step as the walk makes it.
pub type Stepped = StepOf<Decline>;
