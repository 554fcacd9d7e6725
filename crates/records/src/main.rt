// 02's examples of a walk, executed over the C interface: the requests of tools/examples.py (see `requests`). Behind each stand its
// alterations, their length in two bytes first: the walk's record is altered by them before the first step, so that walks which no
// placing gives can be asked for. Every step is printed with its moves, depth and count; where one is declined, with the record after it. A
// request may ask for the tally or the check, and nothing else is looked at then but what they take.
#![tactic(auto)]

use key::first;
use node::le;
use requests::{KeyText, Mode, Request, line};
use std::fmt;
use walk_record::layout;

// The requests: more than there are.
const MOST: usize = 1000;

// The most bytes of a request's alterations.
const CHANGES: usize = 512;

// What a request asks for.
#[derive(Clone, Copy)]
enum Form {
    Walk,
    Tally,
    Check,
}

impl From<u8> for Form {
    fn from(number: u8) -> Form {
        match number {
            3 => Form::Tally,
            4 => Form::Check,
            _ => Form::Walk,
        }
    }
}

// An alteration: an index in two bytes and a value in eight. Below the record's numbers it is a number's, from 256 on a byte's of the buffer.
const WIDTH: usize = 10;

const BUFFER: usize = 256;

// The steps of one request: more than are asked for.
const STEPS: usize = 100;

// A walk's record, as C has it.
#[derive(Drop)]
struct Record {
    numbers: [u64; layout::NUMBERS],
    buf: [u8; 256],
    bound: [u8; 256],
}

impl Record {
    fn new() -> Record {
        Record {
            numbers: [0; layout::NUMBERS],
            buf: [0; 256],
            bound: [0; 256],
        }
    }

    // The placing's number; the short form is placed above.
    fn place(&mut self, request: &Request<Form>) -> u8 {
        let Record {
            numbers,
            buf,
            bound,
        } = self;
        let image = request.image;
        let cursor = request.cursor;
        let kind = request.kind;
        let key = request.bound;
        match request.mode {
            Mode::From => {
                punchbronze::pb_place_from(image, cursor, kind, key, numbers, buf, bound)
            }
            Mode::Above | Mode::Short => {
                punchbronze::pb_place_above(image, cursor, kind, key, numbers, buf, bound)
            }
        }
    }

    fn alter(&mut self, changes: &[u8]) {
        for change in changes.chunks_exact(WIDTH) {
            let index = usize::from(le::u16_at(change, 0));
            let value = le::u64_at(change, 2);
            if let Some(number) = self.numbers.get_mut(index) {
                *number = value;
            } else if let Some(at) = index.checked_sub(BUFFER)
                && let Some(byte) = self.buf.get_mut(at)
            {
                *byte = (value % 256) as u8;
            }
        }
    }

    // One step; whether it handed out a key.
    fn step(&mut self, rt: &impl Print, name: &[u8], image: &[u8]) -> bool {
        let mut out = [7u64; 6];
        let code = punchbronze::pb_step(
            &mut self.numbers,
            &mut self.buf,
            &self.bound,
            image,
            &mut out,
        );
        if code != 0 {
            let after = format_args!(" declined {code}{}{}", Numbers(self), Said(out));
            line(rt, name, after);
            return false;
        }
        let [is_key, len, value, moves, depth, count] = out;
        let handed = format_args!("moves {moves} depth {depth} count {count}");
        if is_key == 1 {
            let key = KeyText(first(&self.buf, len as usize));
            line(rt, name, format_args!(" key {key} {value} {handed}"));
        } else {
            line(rt, name, format_args!(" none {handed}"));
        }
        is_key == 1
    }
}

// A record's numbers but for the image's length, the bound and what is stacked.
#[derive(Drop)]
struct Numbers<'a>(&'a Record);

impl fmt::Display for Numbers<'_> {
    fn fmt<W: fmt::Write>(&self, f: &mut fmt::Formatter<W>) -> fmt::Result {
        for (word, index) in [
            ("root", layout::ROOT),
            ("leaf", layout::LEAF),
            ("position", layout::POSITION),
            ("offset", layout::OFFSET),
            ("length", layout::LEN),
            ("depth", layout::DEPTH),
            ("state", layout::STATE),
            ("mode", layout::MODE),
            ("last depth", layout::LAST_DEPTH),
            ("count", layout::COUNT),
        ] {
            if let Some(number) = self.0.numbers.get(index) {
                write!(f, " {word} {number}")?;
            }
        }
        Ok(())
    }
}

// What a declined step says, where that is not six zeros.
#[derive(Drop)]
struct Said([u64; 6]);

impl fmt::Display for Said {
    fn fmt<W: fmt::Write>(&self, f: &mut fmt::Formatter<W>) -> fmt::Result {
        if self.0 == [0; 6] {
            return Ok(());
        }
        f.write_str(" said")?;
        for number in &self.0 {
            write!(f, " {number}")?;
        }
        Ok(())
    }
}

// The placing, the alterations, and the steps up to the first that hands out no key.
fn walk(rt: &impl Print, request: &Request<Form>, changes: &[u8]) {
    let mut record = Record::new();
    let code = record.place(request);
    line(rt, request.name, format_args!(" placed {code}"));
    if code != 0 {
        return;
    }
    record.alter(changes);
    for _ in 0..STEPS {
        if !record.step(rt, request.name, request.image) {
            break;
        }
    }
}

// The check's number, and its three numbers.
fn check(rt: &impl Print, request: &Request<Form>) {
    let mut counts = [7u64; 3];
    let code = punchbronze::pb_check(request.image, &mut counts);
    let [leaves, values, layers] = counts;
    line(
        rt,
        request.name,
        format_args!(" check {code} leaves {leaves} values {values} layers {layers}"),
    );
}

// The tally's number, and its count.
fn tally(rt: &impl Print, request: &Request<Form>) {
    let mut out = [7u64; 1];
    let code = punchbronze::pb_tally(
        request.image,
        request.cursor,
        request.kind,
        request.bound,
        &mut out,
    );
    let [count] = out;
    line(
        rt,
        request.name,
        format_args!(" tally {code} count {count}"),
    );
}

fn answer(rt: &impl Print, request: &Request<Form>, changes: &[u8]) {
    match request.form {
        Form::Walk => walk(rt, request, changes),
        Form::Tally => tally(rt, request),
        Form::Check => check(rt, request),
    }
}

fn main(rt: HostRuntime) {
    let mut changes = [0u8; CHANGES];
    requests::each(
        &mut rt.reader(),
        MOST,
        &mut |request, input| {
            let changes = requests::field(input, 2, &mut changes)?;
            answer(&rt, request, changes);
            Some(())
        },
    );
}
