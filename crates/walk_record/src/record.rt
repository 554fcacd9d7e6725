// A walk and the record in which it crosses to C: 76 numbers and two buffers of 256 bytes, which the caller lends.
ghost use Rattle.std.specs.Prelude.{◌≡◌, ◌≤◌};
ghost use Rattle.base.specs.Kit.{get_or};
ghost use Rattle.walk_record.specs.Record.{kind_at, mode_of, state_number, state_of, numbers_of, entries, read_walk, is_readable};
ghost use Rattle.walk_record.specs.CodeLaid.{head_of, read_cursor, read_bound, read_handed};

use crate::layout;
use cursor::cursor_key::CursorKey;
use cursor::range_bound::{RangeBound, StartMode};
use node::permuter::Position;
use walk::scan_state::{EMPTY_CONTEXT, HandedOut, LayerContext, Walk, WalkState};

// Whether a walk can be read of a record's numbers.
#[tactic(auto, using(std::proofs::lemmas::Bool::Decides::nat_tests), unfolding(crate::specs::Record::is_readable))]
pub fn is_readable(numbers: &[u64; layout::NUMBERS]) -> bool
    ensures { result ≡ is_readable numbers.now }
{
    numbers[layout::KIND] <= 255 && numbers[layout::STATE] <= 3 && numbers[layout::MODE] <= 1
}

// Of any number, as a record may hold it: `is_readable` tells which are a mode's. (No TryFrom: `read_walk` takes a record of any numbers, so
// the error would be dropped right here, by `unwrap_or(StartMode::From)`, and the arms would be three. No From<u64>: it would give a type of
// the walk a meaning for every number, which only the record has.)
#[tactic(auto, using(std::proofs::lemmas::Bool::Decides::nat_tests), unfolding(crate::specs::Record::mode_of, base::specs::Pick::pick))]
fn mode_of(n: u64) -> StartMode
    ensures { result ≡ mode_of n }
{
    match n {
        0 => StartMode::Above,
        _ => StartMode::From,
    }
}

// A state's number, as a record has it. (A mode's is `as u64` in its place: it is written once. record_step writes and tests a state too, and
// its clauses name this one's definition.)
#[tactic(auto, unfolding(crate::specs::Record::state_number))]
pub fn state_number(state: WalkState) -> u64
    ensures { result ≡ state_number state }
{
    state as u64
}

// Of any number too, and no TryFrom or From<u64> for the same reasons.
#[tactic(auto, using(std::proofs::lemmas::Bool::Decides::nat_tests), unfolding(crate::specs::Record::state_of, base::specs::Pick::pick))]
fn state_of(n: u64) -> WalkState
    ensures { result ≡ state_of n }
{
    match n {
        0 => WalkState::Start,
        1 => WalkState::Retry,
        2 => WalkState::FindNext,
        _ => WalkState::Ended,
    }
}

// The walk's numbers before the stack's, which are zero yet.
#[tactic(auto, unfolding(crate::specs::CodeLaid::head_of, crate::specs::Record::mode_number))]
fn head_of(walk: Walk) -> [u64; layout::NUMBERS]
    ensures { result ≡ head_of walk }
{
    let k = walk.cursor;
    let mut n = [0u64; layout::NUMBERS];
    n[layout::IMAGE_LEN] = walk.image_len as u64;
    n[layout::ROOT] = walk.root;
    n[layout::LEAF] = walk.leaf;
    n[layout::POSITION] = walk.position.0 as u64;
    n[layout::OFFSET] = k.offset as u64;
    n[layout::LEN] = k.len as u64;
    n[layout::IKEY] = k.ikey;
    n[layout::DEPTH] = walk.depth as u64;
    n[layout::KIND] = u64::from(walk.bound.kind);
    n[layout::BOUND_LEN] = walk.bound.len as u64;
    n[layout::STATE] = state_number(walk.state);
    n[layout::MODE] = walk.mode as u64;
    n[layout::LAST_DEPTH] = walk.handed.depth as u64;
    n[layout::COUNT] = walk.handed.count as u64;
    n
}

// All numbers of a walk. (Tried: `n[STACK..].chunks_exact_mut(2)` beside the stack, the proof did not close: after such a loop nothing is known
// of what it wrote.)
#[tactic(auto, using(crate::proofs::Turns::spread_more, crate::proofs::Turns::spread_done, crate::proofs::Turns::spread_all))]
fn numbers_of(walk: Walk) -> [u64; layout::NUMBERS]
    ensures { result ≡ numbers_of walk }
{
    let mut n = head_of(walk);
    for (i, e) in walk.stack.iter().enumerate() {
        n[layout::STACK + 2 * i] = e.root;
        n[layout::STACK + 1 + 2 * i] = e.leaf;
    }
    n
}

// A walk's numbers and its cursor's buffer into a record, whose bound stays. (Inlined where it is called, of which there are two: the walk would
// be copied for the call, a kilobyte a step.)
#[inline(always)]
pub fn put_moved(walk: Walk, numbers: &mut [u64; layout::NUMBERS], buf: &mut [u8; 256])
    ensures { (numbers.new ≡ numbers_of walk) × (buf.new ≡ walk.cursor.buf) }
{
    numbers.copy_from_slice(&numbers_of(walk));
    buf.copy_from_slice(&walk.cursor.buf);
}

// A walk into a record.
pub fn put_walk(
    walk: Walk,
    numbers: &mut [u64; layout::NUMBERS],
    buf: &mut [u8; 256],
    bound: &mut [u8; 256],
)
    ensures { (numbers.new ≡ numbers_of walk)
        × (buf.new ≡ walk.cursor.buf)
        × (bound.new ≡ walk.bound.key) }
{
    put_moved(walk, numbers, buf);
    bound.copy_from_slice(&walk.bound.key);
}

// The stack of a record. (Tried: `stack.iter_mut().zip(numbers[STACK..].chunks_exact(2))`, the proof did not close: behind a `zip` of
// `iter_mut` nothing is known of what the loop wrote.)
#[tactic(auto, unfolding(crate::specs::Record::entry_at), using(crate::proofs::Turns::fill_more, crate::proofs::Turns::fill_done, crate::proofs::Turns::fill_all))]
fn read_stack(numbers: &[u64; layout::NUMBERS]) -> [LayerContext; 31]
    ensures { result ≡ entries numbers.now 0 31 }
{
    let mut stack = [EMPTY_CONTEXT; 31];
    for (i, e) in stack.iter_mut().enumerate() {
        *e = LayerContext {
            root: numbers[layout::STACK + 2 * i],
            leaf: numbers[layout::STACK + 1 + 2 * i],
        };
    }
    stack
}

#[tactic(auto, unfolding(crate::specs::CodeLaid::read_cursor))]
fn read_cursor(numbers: &[u64; layout::NUMBERS], buf: &[u8; 256]) -> CursorKey
    ensures { result ≡ read_cursor numbers.now buf.now }
{
    CursorKey {
        buf: *buf,
        offset: numbers[layout::OFFSET] as usize,
        len: numbers[layout::LEN] as usize,
        ikey: numbers[layout::IKEY],
    }
}

#[tactic(auto, unfolding(crate::specs::CodeLaid::read_bound))]
fn read_bound(numbers: &[u64; layout::NUMBERS], bound: &[u8; 256]) -> RangeBound
    requires { get_or numbers.now kind_at 0 ≤ 255 }
    ensures { result ≡ read_bound numbers.now bound.now }
{
    RangeBound {
        kind: numbers[layout::KIND] as u8,
        len: numbers[layout::BOUND_LEN] as usize,
        key: *bound,
    }
}

// What a record's walk has handed out.
#[tactic(auto, unfolding(crate::specs::CodeLaid::read_handed))]
pub fn read_handed(numbers: &[u64; layout::NUMBERS]) -> HandedOut
    ensures { result ≡ read_handed numbers.now }
{
    HandedOut {
        depth: numbers[layout::LAST_DEPTH] as usize,
        count: numbers[layout::COUNT] as usize,
    }
}

// The walk of a record.
#[tactic(auto, unfolding(crate::specs::Record::read_walk, crate::specs::CodeLaid::read_cursor, crate::specs::CodeLaid::read_bound, crate::specs::CodeLaid::read_handed))]
pub fn read_walk(numbers: &[u64; layout::NUMBERS], buf: &[u8; 256], bound: &[u8; 256]) -> Walk
    requires { get_or numbers.now kind_at 0 ≤ 255 }
    ensures { result ≡ read_walk numbers.now buf.now bound.now }
{
    Walk {
        image_len: numbers[layout::IMAGE_LEN] as usize,
        root: numbers[layout::ROOT],
        leaf: numbers[layout::LEAF],
        position: Position(numbers[layout::POSITION] as usize),
        cursor: read_cursor(numbers, buf),
        depth: numbers[layout::DEPTH] as usize,
        stack: read_stack(numbers),
        bound: read_bound(numbers, bound),
        mode: mode_of(numbers[layout::MODE]),
        state: state_of(numbers[layout::STATE]),
        handed: read_handed(numbers),
    }
}
