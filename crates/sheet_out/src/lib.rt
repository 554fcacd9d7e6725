// Writes an image's sheet to standard output, line by line as `listed` gives it: there is no buffer for the whole sheet.
//
// Interface: `put_sheet`, of an image, and `run`, of the one on standard input. Neither has a `requires` or hands anything back; where the
// output fails they end.
#![tactic(auto)]

ghost use Rattle.std.specs.Prelude.{◌≤◌, length};

use base::Decline;
use key::first;
use std::io;
use std::io::Read;

/// The longest image that is listed.
const LONGEST: usize = 65536;

// The sheet's lines, to the last. There are no more than the image has bytes, and two. (By hand, and no iterator: that
// would be a struct and an impl for this loop alone, which keeps its bound, and its end where a write fails.)
fn write_sheet(rt: &impl Print, image: &[u8]) -> io::Result<()> {
    let mut listing = listed::open(image);
    for _ in 0..image.len() + 2 {
        let Ok(Some(line)) = listed::next_line(listing, image) else {
            break;
        };
        rt.write_all(line.text())?;
        listing = line.listing;
    }
    Ok(())
}

/// The sheet of any bytes. Where the output fails, it ends.
pub fn put_sheet(rt: &impl Print, image: &[u8]) {
    let _ = write_sheet(rt, image);
}

// The only line of what is declined without being read whole.
fn put_refused(rt: &impl Print, decline: Decline) -> io::Result<()> {
    let mut line = [0u8; sheet::LINE];
    let n = sheet::refused_line(&mut line, u64::from(u8::from(decline)));
    rt.write_all(first(&line, n))
}

// Reads until the space is full, the input ends or a read fails, and returns how many bytes it put at the start of it. A read that goes on
// takes a byte at least.
fn read_full(input: &mut impl Read, space: &mut [u8]) -> usize
    ensures { result ≤ length space.new }
{
    let mut done = 0;
    for _ in 0..space.len() {
        match input.read(&mut space[done..]) {
            Ok(0) | Err(_) => break,
            Ok(n) => done += n,
        }
    }
    done
}

/// The sheet of the image on standard input. One of over 65,536 bytes is declined by its length; where the input fails, that is said on
/// standard error, and nothing is listed.
pub fn run(rt: &(impl Input + Print + Eprint)) {
    let mut input = rt.reader();
    let mut image = [0u8; LONGEST];
    let n = read_full(&mut input, &mut image);
    // The count does not say whether the input has ended or a read failed. One more read does.
    let _ = match input.read(&mut [0u8; 1]) {
        Ok(0) => write_sheet(rt, &image[..n]),
        Ok(_) if n == LONGEST => put_refused(rt, Decline::ImageLength),
        _ => rt.eprintln("the input cannot be read"),
    };
}
