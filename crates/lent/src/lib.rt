// The second form of the step (01, "`&mut self`"): the walk is lent and changed where it is; the answer is the same.
//
// `step_lent` and `step_over` take anything and have no `requires`. `step_over` lends a local: the lent form for a caller that has the
// walk by value.
#![tactic(auto)]

ghost use Rattle.std.specs.Prelude.{◌≡◌};
ghost use Rattle.scan.specs.Machine.{step};
ghost use Rattle.lent.specs.Form.{answer_of};

use walk::scan_state::{Answer, HandedOut, Stepped, Walk};

// A step's answer, its moves and what its walk has handed out, without the walk. (As a part of Stepped it would only make a step's fields
// one word longer wherever one is read.)
#[derive(Clone, Copy)]
pub struct StepAnswer {
    pub answer: Answer,
    pub moves: usize,
    pub handed: HandedOut,
}

// One key further, on a walk that is lent. Declined with 21, 22 or 23, and then the walk is left as it came.
pub fn step_lent(walk: &mut Walk, image: &[u8]) -> StepAnswer
    ensures { (result ≡ answer_of (step walk.old image.now)) × (walk.new ≡ (step walk.old image.now).walk) }
{
    let s = scan::step::step(*walk, image);
    *walk = s.walk;
    StepAnswer {
        answer: s.answer,
        moves: s.moves,
        handed: s.handed,
    }
}

// The same by value: a local that holds the walk is lent.
pub fn step_over(walk: Walk, image: &[u8]) -> Stepped
    ensures { result ≡ step walk image.now }
{
    let mut w = walk;
    let a = step_lent(&mut w, image);
    Stepped {
        answer: a.answer,
        moves: a.moves,
        handed: a.handed,
        walk: w,
    }
}
