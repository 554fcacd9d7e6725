// The moves of the loop over a resting image (the Rust's forward_ctx.rs, but for the loop itself). A move takes what goes by value and
// the buffer lent; the loop holds the layer stack. Where the Rust waits for a stable version or starts again, a resting image that cannot
// be read is declined.
//
// Interface: `one_move`, the functions of fast_path and of stored_key, and of context the types, and `in_layer` and `go_on`, which scan calls.
// A move asks that the key it works on lies within the buffer, which the step's test of a walk's numbers (21) gives; whatever the image says is
// answered or declined.
#![tactic(auto)]

ghost use Rattle.std.specs.Prelude.{◌≡◌, ◌≤◌};
ghost use Rattle.base.specs.Kit.{true};
ghost use Rattle.search.specs.Traversal.{leaf_there};
ghost use Rattle.moves.specs.Moves.{handle_down, handle_up, pass_in};
ghost use Rattle.moves.specs.CodeMoves.{MoveOk};

use crate::context::{Outcome, Pass, ScanCtx, ScanState};
use crate::walking::Walking;
use base::Decline;
use cursor::cursor_key::CursorReader;
use cursor::range_bound::End;
use search::{helper, traversal};

pub mod context;
pub mod fast_path;
mod find_next;
mod find_start;
pub mod stored_key;
mod walking;

// Down: into the layer whose root the loop has taken.
#[tactic(auto, unfolding(crate::specs::Moves::handle_down))]
fn handle_down(c: ScanCtx) -> Pass
    requires { c.cursor.offset ≤ 256 }
    ensures { result ≡ handle_down c }
{
    Pass {
        outcome: Outcome::Continue,
        ctx: ScanCtx {
            cursor: c.cursor.shift_clear(),
            state: ScanState::Retry,
            last: 0,
            dup: true,
            ..c
        },
    }
}

// Up: the loop has popped the layer above; past its slot.
#[tactic(auto, unfolding(crate::specs::Moves::handle_up, cursor::specs::CursorKey::unshift, base::specs::Decline::and_then, base::specs::Pick::pick))]
fn handle_up(image: &[u8], buf: &[u8; 256], c: ScanCtx) -> Result<Pass, Decline>
    requires le_offset { 8 ≤ c.cursor.offset }
    requires offset_bound { c.cursor.offset ≤ 248 }
    ensures { result ≡ handle_up image.now buf.now c }
{
    let leaf = traversal::leaf_at(image, c.leaf).ok_or(Decline::Unreadable)?;
    let up = c.cursor.unshift(buf);
    let position = helper::lower_with_suffix(leaf, CursorReader { place: up, buf })?;
    Ok(context::stand(c, c.leaf, up, true, 0, position))
}

// One move of the loop. Before Up the loop has popped. `tested` tells that this move is a FindNext and has tested its leaf's version: a move
// tests it once, and the loop and the step have where they tried the fast path (docs/DECISIONS.md, S16). It is a flag and no
// Option<LeafReader>: the leaf's place would stand twice, the clause would still say that the reader's image and place are the walk's and that a
// leaf is there (which is more than a reader's fact), and the moves along a leaf would have to hand the reader back.
#[tactic(auto, unfolding(crate::specs::Moves::pass_in, crate::specs::Moves::kept, crate::specs::CodeMoves::InBuffer))]
pub fn one_move(
    image: &[u8],
    end: End,
    buf: &mut [u8; 256],
    c: ScanCtx,
    tested: bool,
) -> Result<Pass, Decline>
    requires move_ok { MoveOk c }
    requires leaf_value { tested ≡ true → leaf_there image.now c.leaf ≡ true }
    ensures { (result ≡ (pass_in c.state image.now end.entry.kind end.entry.key.now buf.old c).pass) × (buf.new ≡ (pass_in c.state image.now end.entry.kind end.entry.key.now buf.old c).buf) }
{
    match c.state {
        ScanState::Start(mode) => Walking { image, ctx: c }.find_start(buf, mode),
        ScanState::Retry => Walking { image, ctx: c }.find_retry(buf),
        ScanState::FindNext => Walking { image, ctx: c }.find_next(end, buf, tested),
        ScanState::Down => Ok(handle_down(c)),
        ScanState::Up => handle_up(image, buf, c),
    }
}
