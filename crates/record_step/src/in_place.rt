// A record's numbers, read and changed where they are, for the step that hands out the next slot's key.
ghost use Rattle.std.specs.Prelude.{◌≡◌, ◌^◌, ◌≤◌, ◌<◌};
ghost use Rattle.base.specs.Kit.{get_or};
ghost use Rattle.walk.specs.Walk.{one_more};
ghost use Rattle.walk_record.specs.Record.{position_at, depth_at, count_at};
ghost use Rattle.walk_record.specs.CodeLaid.{read_handed};
ghost use Rattle.record_step.specs.CodeInPlace.{numbers_ok, place_of, key_numbers};

use cursor::cursor_key::CursorPlace;
use walk::handed_out;
use walk::scan_state::{HandedOut, WalkState};
use walk::walk_ok::WalkNumbers;
use walk_record::{layout, record};

// Whether a record's numbers are in range, over an image of n bytes (01's 21).
#[tactic(auto, unfolding(crate::specs::CodeInPlace::numbers_ok, walk_record::specs::Record::read_walk, walk::specs::Walk::walk_ok))]
pub fn is_numbers_ok(numbers: &[u64; layout::NUMBERS], n: usize) -> bool
    ensures { result ≡ numbers_ok numbers.now n }
{
    let walk = WalkNumbers {
        image_len: numbers[layout::IMAGE_LEN] as usize,
        depth: numbers[layout::DEPTH] as usize,
        offset: numbers[layout::OFFSET] as usize,
        len: numbers[layout::LEN] as usize,
        position: numbers[layout::POSITION] as usize,
        kind: numbers[layout::KIND] as usize,
        bound_len: numbers[layout::BOUND_LEN] as usize,
        last_depth: numbers[layout::LAST_DEPTH] as usize,
        count: numbers[layout::COUNT] as usize,
    };
    walk.is_in_range(n)
}

// The cursor of a record's walk.
pub fn place_of(numbers: &[u64; layout::NUMBERS]) -> CursorPlace
    ensures { result ≡ place_of numbers.now }
{
    CursorPlace {
        offset: numbers[layout::OFFSET] as usize,
        len: numbers[layout::LEN] as usize,
        ikey: numbers[layout::IKEY],
    }
}

// What a record's walk has handed out with one key more, which is found at the walk's depth.
#[tactic(auto, unfolding(walk_record::specs::CodeLaid::read_handed))]
pub fn one_more_of(numbers: &[u64; layout::NUMBERS]) -> HandedOut
    requires { get_or numbers.now count_at 0 < 2 ^ 63 }
    ensures { result ≡ one_more (read_handed numbers.now) (get_or numbers.now depth_at 0) }
{
    handed_out::one_more(
        record::read_handed(numbers),
        numbers[layout::DEPTH] as usize,
    )
}

// The numbers one position on, with a key, a state, and what the walk has handed out.
#[tactic(auto, unfolding(crate::specs::CodeInPlace::key_numbers))]
pub fn put_key(
    numbers: &mut [u64; layout::NUMBERS],
    k: CursorPlace,
    state: WalkState,
    handed: HandedOut,
)
    requires { get_or numbers.old position_at 0 ≤ 15 }
    ensures { numbers.new ≡ key_numbers numbers.old k state handed }
{
    numbers[layout::POSITION] += 1;
    numbers[layout::LEN] = k.len as u64;
    numbers[layout::IKEY] = k.ikey;
    numbers[layout::STATE] = record::state_number(state);
    numbers[layout::LAST_DEPTH] = handed.depth as u64;
    numbers[layout::COUNT] = handed.count as u64;
}
