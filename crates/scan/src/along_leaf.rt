// The fast path's moves along one leaf, for a count: as long as it makes them, the loop does not.
ghost use Rattle.std.specs.Prelude.{◌≡◌, ◌≤◌};
ghost use Rattle.base.specs.Kit.{length};
ghost use Rattle.moves.specs.CodeMoves.{InRange};
ghost use Rattle.scan.specs.CodeLoop.{is_along, along_with, AfterKey, AlongFrom};

use base::Decline;
use cursor::range_bound::End;
use moves::context::{ScanCtx, ScanState};
use moves::{context, fast_path, stored_key};
use search::traversal;
use walk::scan_state::Answer;

// The moves along a leaf, and the keys that they hand out. They end with the loop's answer at the bound, whose included end is out or which a
// key is past, and where one is declined; and with none before a move that the fast path does not make, whose leaf is tested.
// (No `Ending`: that has an answer in every case, and whether its key is the last.)
#[derive(Clone, Copy)]
pub struct Along {
    pub end: Option<Answer>,
    pub ctx: ScanCtx,
    pub keys: usize,
    pub moves: usize,
}

// Whether a whole walk stands right after a key.
#[tactic(auto, using(std::proofs::lemmas::Bool::Decides::nat_tests), unfolding(crate::specs::CodeLoop::is_along))]
pub fn is_along(c: ScanCtx, whole: bool) -> bool
    ensures { result ≡ is_along c whole }
{
    whole && matches!(c.state, ScanState::FindNext) && !c.dup && c.last == c.cursor.ikey
}

fn ended_by(end: Option<Answer>, ctx: ScanCtx, keys: usize, moves: usize) -> Along
    ensures { result ≡ along_with end ctx keys moves }
{
    Along {
        end,
        ctx,
        keys,
        moves,
    }
}

// Moves of the fast path from right after a key, of which `done` moves with `found` keys were made before. Each that does not end it hands out
// a key, so the keys are counted by the moves.
pub fn along_leaf(
    image: &[u8],
    end: End,
    buf: &mut [u8; 256],
    start: ScanCtx,
    found: usize,
    done: usize,
) -> Along
    requires after_key { AfterKey start }
    requires in_range { InRange start.depth start }
    requires found_le_done { found ≤ done }
    requires done_in_bounds { done ≤ length image.now }
    ensures { AlongFrom image.now end.entry.kind end.entry.key.now buf.old start found done result buf.new }
{
    let mut c = start;
    for moves in done..image.len() {
        let keys = found + (moves - done);
        let Some(leaf) = traversal::leaf_at(image, c.leaf) else {
            return ended_by(Some(Err(Decline::Unreadable)), c, keys, moves + 1);
        };
        let Some(s) = fast_path::fast_slot(leaf, c.position, c.cursor) else {
            return ended_by(None, c, keys, moves);
        };
        let stored = stored_key::store_key(s, buf, c.cursor);
        c = context::go_on(c, stored, stored.ikey);
        let Some(handed) = fast_path::hand_out(s, end, buf, stored) else {
            return ended_by(Some(Ok(None)), c, keys, moves + 1);
        };
        if handed.last {
            return ended_by(Some(Ok(None)), c, keys + 1, moves + 1);
        }
    }
    ended_by(
        Some(Err(Decline::MovesSpent)),
        c,
        found + (image.len() - done),
        image.len(),
    )
}
