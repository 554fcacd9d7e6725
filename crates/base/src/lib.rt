// What every crate shares: the declines, with their numbers; a choice by a test (specs/Pick.antt); and laws (proofs/).
//
// Interface: `Decline`; the number of one, `u8::from`, which it is shown as; and of a call that may be declined, `number_if`.
#![tactic(auto)]

ghost use Rattle.std.specs.Prelude.{◌≡◌, Some};
ghost use Rattle.base.specs.Decline.{HasNumber, decline_text, number_if};

use std::fmt;

/// Why a call is declined.
#[derive(Clone, Copy, Debug, PartialEq, Eq)]
pub enum Decline {
    /// The image's length.
    ImageLength = 1,
    /// The length that the trailer states, or its edition.
    Trailer = 2,
    /// Where a record or a suffix lies.
    RecordPlace = 3,
    /// A version bit, an internode's key count, or a thirteenth internode on a path.
    RecordVersion = 4,
    /// A leaf's permutation.
    LeafPermutation = 5,
    /// A `keylenx`, or an ikey past its key's end.
    SlotLength = 6,
    /// A suffix that is empty, a key that is too long, a layer that is too deep.
    SlotKey = 7,
    /// The order of slots, or of separators.
    SlotOrder = 8,
    /// The chain of a layer's leaves.
    LeafChain = 9,
    /// The trailer's key count.
    KeyCount = 10,
    /// A cursor that is too long.
    CursorLength = 11,
    /// A bound's kind.
    BoundKind = 12,
    /// A bound key that is too long.
    BoundLength = 13,
    /// An image that the walk was not placed over, or a walk whose numbers are out of range.
    WalkRange = 21,
    /// What a move cannot read.
    Unreadable = 22,
    /// More moves than the image has bytes.
    MovesSpent = 23,
    /// A sheet's form.
    SheetForm = 31,
    /// The order of a sheet's keys.
    SheetOrder = 32,
    /// An image that is too long, or too long for the output.
    ImageRoom = 33,
}

impl From<Decline> for u8 {
    ghost from_gives = { HasNumber };

    fn from(decline: Decline) -> u8 {
        decline as u8
    }
}

/// A decline is shown as its number, as C and a sheet have it.
impl fmt::Display for Decline {
    ghost output = { λ d. Some (decline_text d) };

    fn fmt<W: fmt::Write>(&self, f: &mut fmt::Formatter<W>) -> fmt::Result {
        write!(f, "{}", u8::from(*self))
    }
}

/// The number of a call by its decline: 0 where it is not declined.
#[tactic(auto, unfolding(crate::specs::Decline::number_if))]
pub fn number_if(declined: Option<Decline>) -> u8
    ensures { result ≡ number_if declined }
{
    declined.map_or(0, u8::from)
}
