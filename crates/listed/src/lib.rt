// The whole sheet of an image, line by line (01, "Surveyed examples").
//
// Interface: `open` takes an image, and `next_line` gives the next line of its sheet, until there is none; both take anything and have no
// `requires`. All lines together are the sheet: specs/Listed.antt says so, and proofs/Listed.antt has the theorem.
#![tactic(auto)]

ghost use Rattle.std.specs.Prelude.{◌≡◌};
ghost use Rattle.std.specs.Fn.{FnOnceReturnsAtMut};
ghost use Rattle.base.specs.Kit.{take, replicate};
ghost use Rattle.scan.specs.Machine.{step};
ghost use Rattle.listed.specs.CodeLines.{begun, opened, step_line, next_line};

use base::Decline;
use cursor::range_bound::StartMode;
use key::first;
use node::trailer::Trailer;
use sheet::LINE;
use walk::scan_state::Walk;

// What comes next: the first line, with the trailer's key count; the pairs and the last line; a decline's only line, with its number; or
// nothing. The number is any u8: a `Decline` would ask more of a caller that makes a listing.
#[derive(Clone, Copy)]
pub enum Stage {
    First(u64),
    Pairs,
    Refused(u8),
    Done,
}

// A listing between its lines: the moves of its walk so far, and the walk.
#[derive(Clone, Copy)]
pub struct Listing {
    pub stage: Stage,
    pub moves: usize,
    pub walk: Walk,
}

// A line: the first `len` of its bytes, and the listing after it.
// An array and a length, since there is no heap; no line is longer than `LINE`.
#[derive(Clone, Copy)]
pub struct Line {
    pub len: usize,
    pub bytes: [u8; LINE],
    pub listing: Listing,
}

impl Line {
    pub fn text(&self) -> &[u8]
        ensures { result.now ≡ take self.now.len self.now.bytes }
    {
        first(&self.bytes, self.len)
    }
}

// A listing at its start: the walk from the empty key on, unbounded.
#[tactic(auto, unfolding(crate::specs::CodeLines::begun))]
fn begin(stage: Stage, image: &[u8]) -> Listing
    ensures { result ≡ begun stage image.now }
{
    let placed = walk::placing::place(image, StartMode::From, b"", 0, b"");
    Listing {
        stage,
        moves: 0,
        walk: placed.walk,
    }
}

// The listing of any bytes.
#[tactic(auto, using(crate::proofs::LineLaws::has_trailer), unfolding(crate::specs::CodeLines::opened, crate::specs::CodeLines::opened_as))]
pub fn open(image: &[u8]) -> Listing
    ensures { result ≡ opened image.now }
{
    match verify::check_image(image) {
        Ok(_) => begin(Stage::First(Trailer { image }.key_count()), image),
        Err(decline) => begin(Stage::Refused(u8::from(decline)), image),
    }
}

// A line as one of sheet's functions writes it.
fn written<F: FnOnce(&mut [u8; LINE]) -> usize>(write: F, listing: Listing) -> Line
    requires { F.IsAlwaysCallable write }
    ensures bytes { FnOnceReturnsAtMut F.FnOnce write (replicate 534 0) result.len result.bytes }
    ensures listing { result.listing ≡ listing }
{
    let mut bytes = [0u8; LINE];
    let len = write(&mut bytes);
    Line {
        len,
        bytes,
        listing,
    }
}

// One step, and its line.
#[tactic(auto, unfolding(crate::specs::CodeLines::answer_line, crate::specs::CodeLines::sum_of, crate::specs::CodeLines::line_of, crate::specs::CodeLines::blank))]
fn step_line(listing: Listing, image: &[u8]) -> Result<Option<Line>, Decline>
    ensures { result ≡ step_line listing (step listing.walk image.now) }
{
    let stepped = scan::step::step(listing.walk, image);
    let walk = stepped.walk;
    let moves = listing.moves.wrapping_add(stepped.moves);
    match stepped.answer? {
        Some(key) => {
            let after = Listing {
                stage: Stage::Pairs,
                moves,
                walk,
            };
            let bytes = first(&walk.cursor.buf, key.len);
            Ok(Some(written(|out| sheet::pair_line(out, bytes, key.value), after)))
        }
        None => {
            let after = Listing {
                stage: Stage::Done,
                moves,
                walk,
            };
            Ok(Some(written(|out| sheet::last_line(out, moves as u64), after)))
        }
    }
}

// The next line of a listing over the image that it was opened over; none where the sheet is out.
#[tactic(auto, unfolding(crate::specs::CodeLines::next_line, crate::specs::CodeLines::line_at, crate::specs::CodeLines::line_of, crate::specs::CodeLines::blank))]
pub fn next_line(listing: Listing, image: &[u8]) -> Result<Option<Line>, Decline>
    ensures { result ≡ next_line listing image.now }
{
    match listing.stage {
        Stage::First(count) => {
            let after = Listing {
                stage: Stage::Pairs,
                ..listing
            };
            Ok(Some(written(|out| sheet::first_line(out, count), after)))
        }
        Stage::Pairs => step_line(listing, image),
        Stage::Refused(number) => {
            let after = Listing {
                stage: Stage::Done,
                ..listing
            };
            let number = u64::from(number);
            Ok(Some(written(|out| sheet::refused_line(out, number), after)))
        }
        Stage::Done => Ok(None),
    }
}
