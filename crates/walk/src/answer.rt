// What a step's answer says, as numbers (01: "a definition gives this paper's number and values for each of its cases").
ghost use Rattle.std.specs.Prelude.{◌≡◌};
ghost use Rattle.walk.specs.Walk.{HasNumberBy, answer_numbers};

use crate::scan_state::{HandedOut, KeyOut};

// Its number, 0 where the step was not declined, and of a decline the one that it converts to: of a `Decline` 01's, and a number stays what it
// is. (No code here calls it: it is for callers that keep a number.)
pub fn answer_number<E: Into<u8>>(answer: Result<Option<KeyOut>, E>) -> u8
    ensures { HasNumberBy E.converts answer result }
{
    match answer {
        Ok(_) => 0,
        Err(decline) => decline.into(),
    }
}

// Its keys, key length and value, the moves, and the depth and the count of what the walk has handed out.
#[tactic(auto, unfolding(crate::specs::Walk::answer_numbers, crate::specs::Walk::keys_of, crate::specs::Walk::len_of, crate::specs::Walk::value_of))]
pub fn answer_numbers<E: Drop>(
    answer: Result<Option<KeyOut>, E>,
    moves: usize,
    handed: HandedOut,
) -> [u64; 6]
    ensures { result ≡ answer_numbers answer moves handed }
{
    let n = moves as u64;
    let depth = handed.depth as u64;
    let count = handed.count as u64;
    match answer {
        Ok(Some(KeyOut { len, value })) => [1, len as u64, value, n, depth, count],
        Ok(None) | Err(_) => [0, 0, 0, n, depth, count],
    }
}
