// A walk as the loop has it: what it holds at the start of a call, and the walk after it.
ghost use Rattle.std.specs.Prelude.{◌≡◌, ◌≤◌, ◌<◌};
ghost use Rattle.scan.specs.Machine.{scan_state, last_ikey, ctx_of, scan_of, walk_of, layer_of, entered, stacked, popped, unstacked};

use cursor::cursor_key::{CursorKey, CursorPlace};
use cursor::range_bound::StartMode;
use moves::context;
use moves::context::{ScanCtx, ScanState};
use walk::scan_state::{EMPTY_CONTEXT, HandedOut, LayerContext, Walk, WalkState};

// What the loop holds: what goes from move to move, the cursor's buffer, and the layers above.
#[derive(Clone, Copy)]
pub struct Held {
    pub ctx: ScanCtx,
    pub buf: [u8; 256],
    pub stack: [LayerContext; 31],
}

// What the stack keeps of a layer.
fn layer_of(c: ScanCtx) -> LayerContext
    ensures { result ≡ layer_of c }
{
    LayerContext {
        root: c.root,
        leaf: c.leaf,
    }
}

impl Held {
    // Down from c into the layer whose root is given; c's layer is stacked.
    pub fn enter(&mut self, c: ScanCtx, root: u64) -> ScanCtx
        requires { c.depth < 31 }
        ensures entered { result ≡ entered root c }
        ensures stacked { self.new ≡ record { ctx = self.old.ctx; buf = self.old.buf; stack = stacked c self.old.stack } }
    {
        self.stack[c.depth] = layer_of(c);
        context::in_layer(c, root, c.leaf, c.depth + 1)
    }

    // Up from c into the layer above, which the stack gives back.
    pub fn leave(&mut self, c: ScanCtx) -> ScanCtx
        requires pos_depth { 0 < c.depth }
        requires depth_bound { c.depth ≤ 31 }
        ensures popped { result ≡ popped c self.old.stack }
        ensures unstacked { self.new ≡ record { ctx = self.old.ctx; buf = self.old.buf; stack = unstacked c self.old.stack } }
    {
        let depth = c.depth - 1;
        let parent = self.stack[depth];
        self.stack[depth] = EMPTY_CONTEXT;
        context::in_layer(c, parent.root, parent.leaf, depth)
    }
}

// The loop's state at the start of a call.
fn scan_state(mode: StartMode, state: WalkState) -> ScanState
    ensures { result ≡ scan_state mode state }
{
    match state {
        WalkState::Start => ScanState::Start(mode),
        WalkState::Retry => ScanState::Retry,
        WalkState::FindNext => ScanState::FindNext,
        WalkState::Ended => ScanState::Up,
    }
}

// The last ikey handed out, at the start of a call.
fn last_ikey(state: WalkState, ikey: u64) -> u64
    ensures { result ≡ last_ikey state ikey }
{
    match state {
        WalkState::FindNext => ikey,
        WalkState::Start | WalkState::Retry | WalkState::Ended => 0,
    }
}

// What goes from move to move, at the start of a call.
pub fn ctx_of(walk: &Walk) -> ScanCtx
    ensures { result ≡ ctx_of walk.now }
{
    let k = walk.cursor;
    ScanCtx {
        root: walk.root,
        leaf: walk.leaf,
        position: walk.position,
        cursor: CursorPlace {
            offset: k.offset,
            len: k.len,
            ikey: k.ikey,
        },
        depth: walk.depth,
        state: scan_state(walk.mode, walk.state),
        last: last_ikey(walk.state, k.ikey),
        dup: false,
    }
}

// What the loop holds at the start of a call.
#[tactic(auto, unfolding(crate::specs::Machine::scan_of))]
pub fn scan_of(walk: &Walk) -> Held
    ensures { result ≡ scan_of walk.now }
{
    Held {
        ctx: ctx_of(walk),
        buf: walk.cursor.buf,
        stack: walk.stack,
    }
}

// The walk after a call.
pub fn walk_of(walk: &Walk, state: WalkState, handed: HandedOut, held: &Held) -> Walk
    ensures { result ≡ walk_of walk.now state handed held.now }
{
    let c = held.ctx;
    let k = c.cursor;
    Walk {
        root: c.root,
        leaf: c.leaf,
        position: c.position,
        cursor: CursorKey {
            buf: held.buf,
            offset: k.offset,
            len: k.len,
            ikey: k.ikey,
        },
        depth: c.depth,
        stack: held.stack,
        state,
        handed,
        ..*walk
    }
}
