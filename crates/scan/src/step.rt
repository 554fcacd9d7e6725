// Stepping a walk (01, "Step a walk"): `step` takes anything. And all its steps at once as a count, for the tally.
ghost use Rattle.std.specs.Prelude.{◌≡◌};
ghost use Rattle.base.specs.Kit.{true, length};
ghost use Rattle.scan.specs.Types.{WalkStateFindNext as FindNext};
ghost use Rattle.walk.specs.Walk.{walk_ok};
ghost use Rattle.scan.specs.Machine.{advance, step};
ghost use Rattle.scan.specs.CodeLoop.{keys_left};

use crate::{forward_ctx, scan_ctx};
use base::Decline;
use moves::fast_path::HandedKey;
use moves::{context, fast_path, stored_key};
use search::traversal;
use walk::scan_state::{KeyOut, Stepped, Walk, WalkState};
use walk::walk_ok;

// A step of a walk that has handed out a key. Most take the next slot's key, by the fast path; the loop makes every other, and its first
// move does not test the leaf's version again.
#[tactic(auto, using(crate::proofs::BeginLaws::raised, crate::proofs::BeginLaws::bound_fits, crate::proofs::BeginLaws::in_range_lem), unfolding(crate::specs::Machine::scan_of))]
fn step_next(walk: &Walk, image: &[u8]) -> Stepped
    requires image_value { walk_ok walk.now (length image.now) ≡ true }
    requires state_value { walk.now.state ≡ FindNext }
    ensures { result ≡ advance walk.now image.now }
{
    let Some(leaf) = traversal::leaf_at(image, walk.leaf) else {
        return forward_ctx::declined(forward_ctx::no_leaf(image.len()), walk);
    };
    let mut held = scan_ctx::scan_of(walk);
    let c = held.ctx;
    let Some(s) = fast_path::fast_slot(leaf, c.position, c.cursor) else {
        return forward_ctx::advance_no_alloc(walk, image, true);
    };
    // Read for the proof, which did not close without: of what is lent, a length is known once it is read.
    let _walk = *walk;
    let end = walk.bound.end();
    let stored = stored_key::store_key(s, &mut held.buf, c.cursor);
    held.ctx = context::go_on(c, stored, stored.ikey);
    match fast_path::hand_out(s, end, &held.buf, stored) {
        Some(HandedKey { value, last }) => {
            let len = stored.offset + stored.len;
            forward_ctx::stepped(walk, Ok(Some(KeyOut { len, value })), last, 1, &held)
        }
        None => forward_ctx::stepped(walk, Ok(None), false, 1, &held),
    }
}

// One key further. Declined with 21, 22 or 23, and then the walk as it came.
#[tactic(auto, unfolding(crate::specs::Machine::step, base::specs::Pick::pick))]
pub fn step(walk: Walk, image: &[u8]) -> Stepped
    ensures { result ≡ step walk image.now }
{
    if !walk_ok::is_walk_ok(walk, image.len()) {
        return forward_ctx::declined(Decline::WalkRange, &walk);
    }
    match walk.state {
        WalkState::Ended => Stepped {
            answer: Ok(None),
            moves: 0,
            handed: walk.handed,
            walk,
        },
        WalkState::Start | WalkState::Retry => forward_ctx::advance_no_alloc(&walk, image, false),
        WalkState::FindNext => step_next(&walk, image),
    }
}

// How many keys the steps of a walk have yet to hand out, over an accepted image; none where the walk is declined with 21, or ended.
#[tactic(auto, unfolding(crate::specs::CodeLoop::keys_left, base::specs::Pick::pick))]
pub fn count_keys(walk: Walk, image: &[u8]) -> usize
    ensures { result ≡ keys_left walk image.now }
{
    if !walk_ok::is_walk_ok(walk, image.len()) {
        return 0;
    }
    match walk.state {
        WalkState::Ended => 0,
        WalkState::Start | WalkState::Retry | WalkState::FindNext => {
            forward_ctx::count_ahead(walk, image)
        }
    }
}
