// The loop (the Rust's advance_no_alloc): it holds the layer stack, and makes moves until the next key is out, or past every key
// until the walk ends, which is a count.
ghost use Rattle.std.specs.Prelude.{◌≡◌, ◌+◌, ◌^◌, ◌≤◌, ◌<◌};
ghost use Rattle.base.specs.Kit.{true, false, length};
ghost use Rattle.walk.specs.Walk.{walk_ok};
ghost use Rattle.search.specs.Traversal.{leaf_there};
ghost use Rattle.moves.proofs.Laws.{Between};
ghost use Rattle.scan.specs.Types.{ScanStateFindNext as FindNext};
ghost use Rattle.scan.specs.Machine.{scan_of, move, after_key, key_out, declined_with, stepped, advance};
ghost use Rattle.scan.specs.CodeLoop.{Begun, MadeAs, ending_with, run_with, no_leaf, advance_by, advanced_of, keys_ahead};

// (Given on for callers of `stepped`.)
pub use crate::scan_ctx::Held;
use crate::{along_leaf, scan_ctx};
use base::Decline;
use cursor::range_bound::End;
use moves::context::{Outcome, Pass, ScanCtx, ScanState};
use walk::handed_out;
use walk::scan_state::{Answer, KeyOut, StepOf, Stepped, Walk, WalkState};

// What the loop comes to: how many keys were out, and the step that its moves make.
#[derive(Clone, Copy)]
pub struct Advanced {
    pub keys: usize,
    pub stepped: Stepped,
}

// Where the loop's moves end: with an answer, whether that is the last key, how many keys were out, and how many moves were made. What it
// goes on with is told apart from buffer and stack, which are lent: in one struct with them it would lie in memory, and not in registers
// (docs/DECISIONS.md S14). `last` stands beside the answer: within it, it would make a second type of answers, out of which each step had to
// make 01's, which has none.
#[derive(Clone, Copy)]
pub struct Ending {
    pub answer: Answer,
    pub last: bool,
    pub ctx: ScanCtx,
    pub keys: usize,
    pub moves: usize,
}

// The key that the cursor has come to, with its value.
fn key_out(c: ScanCtx, value: u64) -> Answer
    requires { c.cursor.offset + c.cursor.len ≤ 256 }
    ensures { result ≡ key_out (c.cursor.offset + c.cursor.len) value }
{
    let len = c.cursor.offset + c.cursor.len;
    Ok(Some(KeyOut { len, value }))
}

// The state of a walk that has handed out a key: ended where that key is its last.
pub fn after_key(last: bool) -> WalkState
    ensures { result ≡ after_key last }
{
    if last {
        WalkState::Ended
    } else {
        WalkState::FindNext
    }
}

// A declined step: its decline, which may be of any type, zero elsewhere, and the walk as it came.
pub fn declined<E: Copy>(decline: E, walk: &Walk) -> StepOf<E>
    ensures { result ≡ declined_with decline walk.now }
{
    StepOf {
        answer: Err(decline),
        moves: 0,
        handed: handed_out::nothing_yet(),
        walk: *walk,
    }
}

// A step by its answer, whether that is the last key, its moves, and what the loop holds after them. (The count is asked for here alone: it
// may be any number in a record, and the test of a walk's numbers has it below the image's length, so that one more fits.)
pub fn stepped<E: Copy>(
    walk: &Walk,
    answer: Result<Option<KeyOut>, E>,
    last: bool,
    moves: usize,
    held: &Held,
) -> StepOf<E>
    requires { walk.now.handed.count < 2 ^ 63 }
    ensures { result ≡ stepped walk.now answer last moves held.now }
{
    match answer {
        Ok(Some(_)) => {
            let handed = handed_out::one_more(walk.handed, held.ctx.depth);
            StepOf {
                answer,
                moves,
                handed,
                walk: scan_ctx::walk_of(walk, after_key(last), handed, held),
            }
        }
        Ok(None) => StepOf {
            answer,
            moves,
            handed: walk.handed,
            walk: scan_ctx::walk_of(walk, WalkState::Ended, walk.handed, held),
        },
        Err(decline) => declined(decline, walk),
    }
}

// Why a step is declined where its first move's leaf is not there, over an image of n bytes.
#[tactic(auto, using(std::proofs::lemmas::Bool::Decides::nat_tests), unfolding(base::specs::Pick::pick))]
pub fn no_leaf(n: usize) -> Decline
    ensures { result ≡ no_leaf n }
{
    if n == 0 {
        Decline::MovesSpent
    } else {
        Decline::Unreadable
    }
}

fn ended(answer: Answer, ctx: ScanCtx, keys: usize, moves: usize) -> Ending
    ensures { result ≡ ending_with answer false ctx keys moves }
{
    Ending {
        answer,
        last: false,
        ctx,
        keys,
        moves,
    }
}

// One move: in Up the layer above is taken back, or the walk ends; then a pass; then a layer that it found is entered, so that no push is
// answered. What goes on comes by value, and is given back in the pass; of a declined move the contract says nothing of `held`. `tested` tells
// that it has tested its leaf's version.
fn make_move(
    image: &[u8],
    end: End,
    held: &mut Held,
    mut c: ScanCtx,
    tested: bool,
) -> Result<Pass, Decline>
    requires between { Between c.state c }
    requires known { tested ≡ true → (c.state ≡ FindNext) × (leaf_there image.now c.leaf ≡ true) }
    ensures { MadeAs (move image.now end.entry.kind end.entry.key.now (record { ctx = c; buf = held.old.buf; stack = held.old.stack })) result held.new }
{
    if let ScanState::Up = c.state {
        if c.depth == 0 {
            let outcome = Outcome::Exhausted;
            return Ok(Pass { outcome, ctx: c });
        }
        c = held.leave(c);
    }
    let p = moves::one_move(image, end, &mut held.buf, c, tested)?;
    let Outcome::Push(root) = p.outcome else {
        return Ok(p);
    };
    Ok(Pass {
        outcome: Outcome::Continue,
        ctx: held.enter(p.ctx, root),
    })
}

// Moves until the next key is out, or where the whole walk is asked for past every key, to the end, 22 or 23. `whole` is a count in place of a
// step: one loop for both (docs/DECISIONS.md, S14). Neither an enum nor two closures would be plainer: it is asked twice, for the moves along
// a leaf and past a key, and a closure could not go on with the loop. `tested` tells that the first move has tested its leaf's version, as
// does a move along a leaf for the move after it: a move tests it once, and nothing is kept (S16).
fn make_moves(walk: &Walk, image: &[u8], whole: bool, mut tested: bool, held: &mut Held) -> Ending
    requires begun { Begun walk.now image.now tested }
    requires from_walk { held.now ≡ scan_of walk.now }
    ensures { advanced_of walk.now (run_with result held.new) ≡ advance_by whole walk.now image.now }
{
    // Read for the proof, which did not close without: of what is lent, a length is known once it is read.
    let _walk = *walk;
    let end = walk.bound.end();
    let mut c = held.ctx;
    let mut moves = 0;
    let mut keys = 0;
    // No range: the moves along a leaf take many of them at once.
    while moves < image.len() {
        if along_leaf::is_along(c, whole) {
            let a = along_leaf::along_leaf(image, end, &mut held.buf, c, keys, moves);
            c = a.ctx;
            keys = a.keys;
            moves = a.moves;
            if let Some(answer) = a.end {
                return ended(answer, c, keys, moves);
            }
            tested = true;
        }
        moves += 1;
        let p = match make_move(image, end, held, c, tested) {
            Ok(p) => p,
            Err(decline) => return ended(Err(decline), c, keys, moves),
        };
        tested = false;
        c = p.ctx;
        match p.outcome {
            // A layer is entered within the move.
            Outcome::Continue | Outcome::Push(_) => {}
            Outcome::Emit { value, last } => {
                keys += 1;
                if !whole {
                    let out = ended(key_out(c, value), c, keys, moves);
                    return Ending { last, ..out };
                }
                if last {
                    return ended(Ok(None), c, keys, moves);
                }
            }
            Outcome::Exhausted => return ended(Ok(None), c, keys, moves),
        }
    }
    ended(Err(Decline::MovesSpent), c, keys, moves)
}

// The moves of a walk, and the step that they make.
#[tactic(auto, using(crate::proofs::BeginLaws::raised), unfolding(crate::specs::Machine::finished))]
fn advance_by(walk: &Walk, image: &[u8], whole: bool, tested: bool) -> Advanced
    requires { Begun walk.now image.now tested }
    ensures { result ≡ advance_by whole walk.now image.now }
{
    let mut held = scan_ctx::scan_of(walk);
    let e = make_moves(walk, image, whole, tested, &mut held);
    held.ctx = e.ctx;
    Advanced {
        keys: e.keys,
        stepped: stepped(walk, e.answer, e.last, e.moves, &held),
    }
}

// Moves until a key is out, the end, 22 or 23.
#[tactic(auto, using(crate::proofs::RunLaws::steps_so))]
pub fn advance_no_alloc(walk: &Walk, image: &[u8], tested: bool) -> Stepped
    requires { Begun walk.now image.now tested }
    ensures { result ≡ advance walk.now image.now }
{
    advance_by(walk, image, false, tested).stepped
}

// How many keys the moves of a walk hand out, as many moves as the image has bytes.
#[tactic(auto, unfolding(crate::specs::CodeLoop::advance_by, crate::specs::CodeLoop::keys_ahead))]
pub fn count_ahead(walk: Walk, image: &[u8]) -> usize
    requires { walk_ok walk (length image.now) ≡ true }
    ensures { result ≡ keys_ahead walk image.now }
{
    advance_by(&walk, image, true, false).keys
}
