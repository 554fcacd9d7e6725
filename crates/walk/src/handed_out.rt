// What a walk has handed out (02 [13]).
ghost use Rattle.std.specs.Prelude.{◌≡◌, ◌<◌, ◌^◌};
ghost use Rattle.walk.specs.Walk.{nothing_yet, one_more};

use crate::scan_state::HandedOut;

// Before the first key. (A function, and no const: a const has no clause, and this one's is the definition's.)
pub fn nothing_yet() -> HandedOut
    ensures { result ≡ nothing_yet }
{
    HandedOut { depth: 0, count: 0 }
}

// One key more, which was found at a depth.
pub fn one_more(handed: HandedOut, depth: usize) -> HandedOut
    requires { handed.count < 2 ^ 63 }
    ensures { result ≡ one_more handed depth }
{
    HandedOut {
        depth,
        count: handed.count + 1,
    }
}
