// For each request of the input (tools/examples.py) its name, and a screen of its image that "indents stations by layer" (02 [13]): the
// live keys by steps, each with the count that its step gives and two spaces for each layer of its depth, and at the end what the none
// gives.
#![tactic(auto)]

use cursor::range_bound::StartMode;
use key::first;
use requests::{KeyText, Request, line};
use std::fmt;
use walk::scan_state::{HandedOut, KeyOut, Walk};

// The requests: more than there are.
const MOST: usize = 1000;

// Two spaces for each layer.
#[derive(Drop)]
struct Indent(usize);

impl fmt::Display for Indent {
    fn fmt<W: fmt::Write>(&self, f: &mut fmt::Formatter<W>) -> fmt::Result {
        for _ in 0..self.0 {
            f.write_str("  ")?;
        }
        Ok(())
    }
}

// The keys of a walk, up to the first answer that is no key.
fn keys(rt: &impl Print, start: Walk, image: &[u8]) {
    let mut walk = start;
    for _ in 0..image.len() {
        let step = scan::step::step(walk, image);
        let HandedOut { depth, count } = step.handed;
        walk = step.walk;
        match step.answer {
            Ok(Some(KeyOut { len, value })) => {
                let key = KeyText(first(&walk.cursor.buf, len));
                line(
                    rt,
                    b"",
                    format_args!("{count} {}{key} {value}", Indent(depth)),
                );
            }
            Ok(None) => return line(rt, b"", format_args!("end depth {depth} count {count}")),
            Err(decline) => return line(rt, b"", format_args!("declined {decline}")),
        }
    }
}

// A request's name, and its image's screen or the check's number; of its form nothing is asked.
fn answer(rt: &impl Print, request: &Request<u8>) {
    let image = request.image;
    line(rt, request.name, "");
    match verify::check_image(image) {
        Ok(_) => {
            let placed = walk::placing::place(image, StartMode::From, b"", 0, b"");
            keys(rt, placed.walk, image);
        }
        Err(decline) => line(rt, b"", format_args!("refused {decline}")),
    }
}

fn main(rt: HostRuntime) {
    requests::each(
        &mut rt.reader(),
        MOST,
        &mut |request, _| {
            answer(&rt, request);
            Some(())
        },
    );
}
