// What C calls: each function is the one of `punchbronze` with the same name, and has its contract. The library is made of this crate;
// include/punchbronze.h declares its functions. (They stand beside punchbronze's: proofs cite those, and a C function cannot be called here.)
#![tactic(auto)]

ghost use Rattle.std.specs.Prelude.{◌≡◌};
ghost use Rattle.base.specs.Kit.{length};
ghost use Rattle.verify.specs.Check.{check, check_number};
ghost use Rattle.walk.specs.Placing.{place};
ghost use Rattle.survey.specs.Tally.{tally, tally_number};
ghost use Rattle.builder.specs.Answer.{built, built_out, built_number, built_length};
ghost use Rattle.punchbronze.specs.Types.{Above, From};
ghost use Rattle.punchbronze.specs.Interface.{counts_after, PutPlaced, StepLeft, count_after, one_after};

// Checks an image (`punchbronze::pb_check`).
#[unsafe(no_mangle)]
pub extern "C" fn pb_check(image: &[u8], counts: &mut [u64]) -> u8
    ensures { (result ≡ check_number (check image.now))
        × (counts.new ≡ counts_after (check image.now) counts.old) }
{
    punchbronze::pb_check(image, counts)
}

// Places a walk above a cursor (`punchbronze::pb_place_above`).
#[unsafe(no_mangle)]
pub extern "C" fn pb_place_above(
    image: &[u8],
    cursor: &[u8],
    kind: u8,
    bound_key: &[u8],
    numbers: &mut [u64],
    buf: &mut [u8],
    bound: &mut [u8],
) -> u8
    ensures { PutPlaced (place image.now Above cursor.now kind bound_key.now) numbers.old buf.old bound.old result numbers.new buf.new bound.new }
{
    punchbronze::pb_place_above(image, cursor, kind, bound_key, numbers, buf, bound)
}

// Places a walk from a cursor on (`punchbronze::pb_place_from`).
#[unsafe(no_mangle)]
pub extern "C" fn pb_place_from(
    image: &[u8],
    cursor: &[u8],
    kind: u8,
    bound_key: &[u8],
    numbers: &mut [u64],
    buf: &mut [u8],
    bound: &mut [u8],
) -> u8
    ensures { PutPlaced (place image.now From cursor.now kind bound_key.now) numbers.old buf.old bound.old result numbers.new buf.new bound.new }
{
    punchbronze::pb_place_from(image, cursor, kind, bound_key, numbers, buf, bound)
}

// One key further (`punchbronze::pb_step`).
#[unsafe(no_mangle)]
pub extern "C" fn pb_step(
    numbers: &mut [u64],
    buf: &mut [u8],
    bound: &[u8],
    image: &[u8],
    out: &mut [u64],
) -> u8
    ensures { StepLeft numbers.old buf.old bound.now image.now out.old result numbers.new buf.new out.new }
{
    punchbronze::pb_step(numbers, buf, bound, image, out)
}

// A tally (`punchbronze::pb_tally`).
#[unsafe(no_mangle)]
pub extern "C" fn pb_tally(
    image: &[u8],
    cursor: &[u8],
    kind: u8,
    bound_key: &[u8],
    out: &mut [u64],
) -> u8
    ensures { (result ≡ tally_number (tally image.now cursor.now kind bound_key.now))
        × (out.new ≡ count_after (tally image.now cursor.now kind bound_key.now) out.old) }
{
    punchbronze::pb_tally(image, cursor, kind, bound_key, out)
}

// Builds an image from a sheet (`punchbronze::pb_build`).
#[unsafe(no_mangle)]
pub extern "C" fn pb_build(sheet: &[u8], out: &mut [u8], len: &mut [u64]) -> u64
    ensures { (result ≡ built_number (built sheet.now (length out.old)))
        × ((out.new ≡ built_out sheet.now out.old)
        × (len.new ≡ one_after (built_length (built sheet.now (length out.old))) len.old)) }
{
    punchbronze::pb_build(sheet, out, len)
}
