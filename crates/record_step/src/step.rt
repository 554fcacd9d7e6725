// A step of a record. Most hand out the next slot's key: they are made on the record where it is, by moves' fast path, and no walk is
// built for them.
ghost use Rattle.std.specs.Prelude.{◌≡◌};
ghost use Rattle.base.specs.Kit.{true, length, get_or};
ghost use Rattle.search.specs.Traversal.{leaf_there};
ghost use Rattle.record_step.specs.Types.{FindNext};
ghost use Rattle.walk.specs.Walk.{walk_ok};
ghost use Rattle.scan.specs.Machine.{step};
ghost use Rattle.walk_record.specs.Record.{leaf_at, state_at, state_number, is_readable};
ghost use Rattle.record_step.specs.CodeInPlace.{numbers_ok};
ghost use Rattle.record_step.specs.CodeStep.{number_made, StepMade};

use crate::in_place;
use base::Decline;
use cursor::range_bound::End;
use moves::fast_path::HandedKey;
use moves::{fast_path, stored_key};
use node::permuter::Position;
use scan::forward_ctx;
use search::traversal;
use walk::answer;
use walk::scan_state::{KeyOut, Stepped, Walk, WalkState};
use walk_record::{layout, record};

// A step of a walk. `tested` tells that its first move has tested its leaf's version (docs/DECISIONS.md S16).
#[tactic(auto, using(scan::proofs::BeginLaws::step_advances))]
fn step_of(walk: Walk, image: &[u8], tested: bool) -> Stepped
    requires { tested ≡ true → (walk_ok walk (length image.now) ≡ true) × (walk.state ≡ FindNext) × (leaf_there image.now walk.leaf ≡ true) }
    ensures { result ≡ step walk image.now }
{
    if tested {
        return forward_ctx::advance_no_alloc(&walk, image, true);
    }
    scan::step::step(walk, image)
}

// The step by way of the record's walk.
// (The slices go one by one, as C lends them: a struct of them would ask nothing, and promise in each function to hold the same ones.)
#[tactic(auto, using(walk_record::proofs::Told::readable_kind))]
fn step_walk(
    numbers: &mut [u64; layout::NUMBERS],
    buf: &mut [u8; 256],
    bound: &[u8; 256],
    image: &[u8],
    out: &mut [u64; 6],
    tested: bool,
) -> Result<(), Decline>
    requires numbers_readable { is_readable numbers.old ≡ true }
    requires image_value { tested ≡ true → (numbers_ok numbers.old (length image.now) ≡ true) × (get_or numbers.old state_at 0 ≡ state_number FindNext) × (leaf_there image.now (get_or numbers.old leaf_at 0) ≡ true) }
    ensures { StepMade numbers.old buf.old bound.now image.now out.old (number_made result) numbers.new buf.new out.new }
{
    let s = step_of(record::read_walk(numbers, buf, bound), image, tested);
    let key = s.answer?;
    record::put_moved(s.walk, numbers, buf);
    out.copy_from_slice(&answer::answer_numbers::<Decline>(Ok(key), s.moves, s.handed));
    Ok(())
}

// The step of a record whose walk has handed out a key. Most hand out the next slot's key, or end by it: the key goes into the buffer, and the
// numbers are changed in place.
#[tactic(auto, using(crate::proofs::InPlace::in_numbers))]
fn step_next(
    numbers: &mut [u64; layout::NUMBERS],
    buf: &mut [u8; 256],
    bound: &[u8; 256],
    image: &[u8],
    out: &mut [u64; 6],
) -> Result<(), Decline>
    requires numbers_readable { is_readable numbers.old ≡ true }
    requires image_value { numbers_ok numbers.old (length image.now) ≡ true }
    requires state_at_value { get_or numbers.old state_at 0 ≡ state_number FindNext }
    ensures { StepMade numbers.old buf.old bound.now image.now out.old (number_made result) numbers.new buf.new out.new }
{
    let Some(leaf) = traversal::leaf_at(image, numbers[layout::LEAF]) else {
        return Err(forward_ctx::no_leaf(image.len()));
    };
    let k = in_place::place_of(numbers);
    let position = Position(numbers[layout::POSITION] as usize);
    let Some(s) = fast_path::fast_slot(leaf, position, k) else {
        return step_walk(numbers, buf, bound, image, out, true);
    };
    let end = End {
        kind: numbers[layout::KIND] as u8,
        key: key::part_of(bound, 0, numbers[layout::BOUND_LEN] as usize),
    };
    let stored = stored_key::store_key(s, buf, k);
    match fast_path::hand_out(s, end, buf, stored) {
        Some(HandedKey { value, last }) => {
            let len = stored.offset + stored.len;
            let handed = in_place::one_more_of(numbers);
            in_place::put_key(numbers, stored, forward_ctx::after_key(last), handed);
            let key = Ok(Some(KeyOut { len, value }));
            out.copy_from_slice(&answer::answer_numbers::<Decline>(key, 1, handed));
        }
        None => {
            let handed = record::read_handed(numbers);
            in_place::put_key(numbers, stored, WalkState::Ended, handed);
            out.copy_from_slice(&answer::answer_numbers::<Decline>(Ok(None), 1, handed));
        }
    }
    Ok(())
}

// A step of a record that a walk can be read of.
pub fn step_record(
    numbers: &mut [u64; layout::NUMBERS],
    buf: &mut [u8; 256],
    bound: &[u8; 256],
    image: &[u8],
    out: &mut [u64; 6],
) -> Result<(), Decline>
    requires { is_readable numbers.old ≡ true }
    ensures { StepMade numbers.old buf.old bound.now image.now out.old (number_made result) numbers.new buf.new out.new }
{
    if numbers[layout::STATE] == record::state_number(WalkState::FindNext)
        && in_place::is_numbers_ok(numbers, image.len())
    {
        return step_next(numbers, buf, bound, image, out);
    }
    step_walk(numbers, buf, bound, image, out, false)
}
