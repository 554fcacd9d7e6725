// The builder, executed (02 [2]): each request of the input (tools/sheets.py) has a sheet in the image's place, and in the cursor's place the
// length of the output, four bytes. The output's bytes are all set to a mark before. A line has the request's name, the number, the
// image's length, the 64-bit FNV-1a of the whole output after it, which fixes what is written and what is not, and for an image what the
// check says of it. In form 1 the image's bytes follow in hex, and its sheet.
#![tactic(auto)]

use base::Decline;
use key::first;
use requests::{Hex, Request, line};
use std::fmt;
use verify::Counts;

// The requests: more than there are.
const MOST: usize = 1000;

// What a request asks for.
#[derive(Clone, Copy, PartialEq, Eq)]
enum Form {
    // Its line alone.
    Line,
    // The image's bytes and its sheet behind the line.
    Whole,
}

impl From<u8> for Form {
    fn from(number: u8) -> Form {
        match number {
            1 => Form::Whole,
            _ => Form::Line,
        }
    }
}

// What the output's bytes are before.
const MARK: u8 = 165;

// The longest output: an image of 3,841 keys of two bytes has room.
const LONGEST: usize = 131072;

// 64-bit FNV-1a.
fn fnv(bytes: &[u8]) -> u64 {
    bytes.iter().fold(0xcbf29ce484222325, |hash: u64, byte| {
        (hash ^ u64::from(*byte)).wrapping_mul(0x100000001b3)
    })
}

// What the check says of an image.
#[derive(Drop)]
struct Verdict(Result<Counts, Decline>);

impl fmt::Display for Verdict {
    fn fmt<W: fmt::Write>(&self, f: &mut fmt::Formatter<W>) -> fmt::Result {
        match self.0 {
            Ok(counts) => write!(f, "accepted {counts}"),
            Err(decline) => write!(f, "refused {decline}"),
        }
    }
}

// A request's lines, with an output of its own.
fn answer(rt: &impl Print, request: &Request<Form>, out: &mut [u8]) {
    let name = request.name;
    out.fill(MARK);
    match builder::build(request.image, out) {
        Ok(n) => {
            let hash = fnv(out);
            let image = first(out, n);
            let verdict = Verdict(verify::check_image(image));
            line(rt, name, format_args!(" 0 {n} {hash:016x} {verdict}"));
            if request.form == Form::Whole {
                line(rt, b"", Hex(image));
                sheet_out::put_sheet(rt, image);
            }
        }
        Err(decline) => {
            let hash = fnv(out);
            line(rt, name, format_args!(" {decline} 0 {hash:016x}"));
        }
    }
}

// The output's length, in the first four bytes of the cursor.
fn room(request: &Request<Form>) -> usize {
    let mut bytes = [0u8; 4];
    let n = request.cursor.len().min(4);
    bytes[..n].copy_from_slice(&request.cursor[..n]);
    u32::from_le_bytes(bytes) as usize
}

// The requests up to the first that asks for a longer output.
fn main(rt: HostRuntime) {
    let mut out = [0u8; LONGEST];
    requests::each(
        &mut rt.reader(),
        MOST,
        &mut |request, _| {
            let out = out.get_mut(..room(request))?;
            answer(&rt, request, out);
            Some(())
        },
    );
}
