// Tally (01, module 9).
//
// Interface: `tally`, which takes anything and has no `requires`: how many keys there are, or a decline.
#![tactic(auto)]

ghost use Rattle.std.specs.Prelude.{◌≡◌};
ghost use Rattle.survey.specs.Tally.{tally};

use base::Decline;
use cursor::range_bound::StartMode;

// How many keys a walk above a cursor hands out within a bound. Declined as the check is, then as a placing: 11, 12 or 13.
#[tactic(auto, unfolding(crate::specs::Tally::tally, base::specs::Decline::and_then), using(crate::proofs::Answers::placed_counts))]
pub fn tally(image: &[u8], cursor: &[u8], kind: u8, bound: &[u8]) -> Result<usize, Decline>
    ensures { result ≡ tally image.now cursor.now kind bound.now }
{
    verify::check_image(image)?;
    let placed = walk::placing::place(image, StartMode::Above, cursor, kind, bound);
    match placed.declined {
        Some(decline) => Err(decline),
        None => Ok(scan::step::count_keys(placed.walk, image)),
    }
}
