// What bench/ times of the walk: loops over whole images, each with an export for C. Nothing else calls them.
//
// Interface: `timed_walk`, `timed_count` and `timed_bound`, which take anything and have no `requires`. The two forms of the step have one
// generic loop: a choice inside a loop would copy every step's answer once more, and be timed with it. (Its call by way of a parameter, or of a
// type, copies the walk once more than a loop for each form did: 158 of some 1,400 instructions a step.)
#![tactic(auto)]

ghost use Rattle.std.specs.Prelude.{◌≡◌, ◌/◌};
ghost use Rattle.base.specs.Kit.{[], length};
ghost use Rattle.cursor.specs.declared.range_bound.StartMode.TheVariants.{Above};
ghost use Rattle.walk.specs.Placing.{place};
ghost use Rattle.scan.specs.CodeLoop.{keys_left};
ghost use Rattle.bench_loops.specs.CodeCounting.{IsStep, keys_from, keys_above, rows_within};

use cursor::range_bound;
use cursor::range_bound::StartMode;
use walk::scan_state::{Placed, Stepped, Walk};

// A walk above the empty cursor, unbounded.
fn place_all(image: &[u8]) -> Placed
    ensures { result ≡ place image.now Above [] 0 [] }
{
    walk::placing::place(image, StartMode::Above, b"", 0, b"")
}

// The keys that a walk above the empty cursor, unbounded, hands out before the first answer that is no key: by the step by value
// where the form is 0, by the lent step otherwise. 0 where the placing is declined. (Numbers, since C calls it.)
#[unsafe(no_mangle)]
pub extern "C" fn timed_walk(image: &[u8], form: u8) -> u64
    ensures { result ≡ keys_above image.now }
{
    let Ok(walk) = place_all(image).accepted() else {
        return 0;
    };
    let keys = if form == 0 {
        keys_by(scan::step::step, walk, image)
    } else {
        keys_by(lent::step_over, walk, image)
    };
    keys as u64
}

// The keys of a walk above the empty cursor, by the tally's loop: one call for all moves.
#[unsafe(no_mangle)]
pub extern "C" fn timed_count(image: &[u8], kind: u8, bound: &[u8]) -> u64
    ensures { result ≡ keys_left (place image.now Above [] kind bound.now).walk image.now }
{
    let placed = walk::placing::place(image, StartMode::Above, b"", kind, bound);
    scan::step::count_keys(placed.walk, image) as u64
}

// The bound test by itself: how many names the bound admits, which stand in rows of so many bytes; 0 where a row has none.
#[unsafe(no_mangle)]
pub extern "C" fn timed_bound(names: &[u8], width: usize, kind: u8, bound: &[u8]) -> u64
    ensures { result ≡ rows_within (length names.now / width) width kind bound.now names.now }
{
    if width == 0 {
        return 0;
    }
    let mut count = 0;
    for name in names.chunks_exact(width) {
        count += u64::from(range_bound::contains(kind, bound, name));
    }
    count
}

// The keys that steps of a walk hand out before the first answer that is no key, of as many steps as the image has bytes. (Tried: a let-else on
// `Ok(Some(_))`, and one arm for both others, the proofs did not close: where two ways meet, nothing of the answer has a name.)
fn keys_by<F: Fn(Walk, &[u8]) -> Stepped>(step: F, start: Walk, image: &[u8]) -> usize
    requires callable { F.IsAlwaysCallable step }
    requires steps { IsStep (F.post step) }
    ensures { result ≡ keys_from (length image.now) start image.now }
{
    let mut walk = start;
    for count in 0..image.len() {
        let stepped = step(walk, image);
        match stepped.answer {
            Ok(Some(_)) => walk = stepped.walk,
            Ok(None) => return count,
            Err(_) => return count,
        }
    }
    image.len()
}
