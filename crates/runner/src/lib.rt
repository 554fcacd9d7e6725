// Runs requests (see `requests`): reads them from standard input and prints their answers. Every line but those of the states begins with
// the name.
//
// Interface: `run`, which has no `requires` and hands nothing back; it goes on past a write that fails.
#![tactic(auto)]

use base::Decline;
use cursor::range_bound::{self, Side, StartMode};
use key::first;
use requests::{KeyText, Mode, Request, line};
use std::fmt;
use walk::placing::{place, place_short};
use walk::scan_state::{KeyOut, Placed, Stepped, Walk};

// The requests: more than there are.
const MOST: usize = 10000;

// What a request asks for. (A test of it stands where forms differ: in which lines are printed, and in that `Lent` steps by another function,
// `Foreign` makes one step more before each, and `States` ends at a decline. A closure for each form would be no plainer.)
#[derive(Clone, Copy, PartialEq, Eq)]
enum Form {
    // Every answer, and nothing more.
    Keys,
    // The same, and at the end all moves, up to and with the first none.
    Moves,
    // As `Keys`, and before each step one over an image that is eight bytes shorter.
    Foreign,
    // The check first, and of the keys only their number.
    Total,
    // The check with its counts, and no walk.
    Check,
    // Every step with its moves, depth and count and the walk's state after it, and no name.
    States,
    // As `Moves`, by the lent form of the step.
    Lent,
    // The bound test of the key in the cursor's place, and neither check nor walk.
    Bound,
    // Any other number: of the walk only how it was placed and how it ends.
    End,
}

impl From<u8> for Form {
    fn from(number: u8) -> Form {
        match number {
            0 => Form::Keys,
            1 => Form::Moves,
            2 => Form::Foreign,
            3 => Form::Total,
            4 => Form::Check,
            5 => Form::States,
            6 => Form::Lent,
            7 => Form::Bound,
            _ => Form::End,
        }
    }
}

// The layers that a walk has entered, outermost first, or `-` for none.
#[derive(Drop)]
struct Layers<'a>(&'a Walk);

impl fmt::Display for Layers<'_> {
    fn fmt<W: fmt::Write>(&self, f: &mut fmt::Formatter<W>) -> fmt::Result {
        let depth = self.0.depth;
        if depth == 0 {
            return f.write_str("-");
        }
        for (i, entry) in self.0.stack[..depth.min(31)].iter().enumerate() {
            if 0 < i {
                f.write_str(",")?;
            }
            write!(f, "{}:{}", entry.root, entry.leaf)?;
        }
        Ok(())
    }
}

// A step's moves, what it says of the keys handed out, and the walk after it. Of the buffer it shows the bytes up to the key's end, and
// the layer's ikey at least.
#[derive(Drop)]
struct State<'a>(&'a Stepped);

impl fmt::Display for State<'_> {
    fn fmt<W: fmt::Write>(&self, f: &mut fmt::Formatter<W>) -> fmt::Result {
        let walk = &self.0.walk;
        let handed = self.0.handed;
        let cursor = &walk.cursor;
        let shown = cursor.offset.wrapping_add(cursor.len.max(8));
        write!(
            f,
            "moves {} depth {} count {}",
            self.0.moves, handed.depth, handed.count
        )?;
        write!(
            f,
            " pos {} leaf {} root {}",
            walk.position.0, walk.leaf, walk.root
        )?;
        write!(
            f,
            " off {} len {} ikey {:016x} buf {} stack {}",
            cursor.offset,
            cursor.len,
            cursor.ikey,
            KeyText(first(&cursor.buf, shown)),
            Layers(walk)
        )
    }
}

impl Form {
    // Whether each key has a line.
    fn shows_keys(self) -> bool {
        matches!(self, Form::Keys | Form::Moves | Form::Foreign | Form::Lent)
    }

    // A step, in the form that is asked for.
    fn step(self, walk: Walk, image: &[u8]) -> Stepped {
        if self == Form::Lent {
            lent::step_over(walk, image)
        } else {
            scan::step::step(walk, image)
        }
    }
}

// A request's placing.
fn placed(request: &Request<Form>) -> Placed {
    let image = request.image;
    let cursor = request.cursor;
    let kind = request.kind;
    let bound = request.bound;
    match request.mode {
        Mode::Above => place(image, StartMode::Above, cursor, kind, bound),
        Mode::From => place(image, StartMode::From, cursor, kind, bound),
        Mode::Short => place_short(image, cursor, kind, bound),
    }
}

// A step's line in `States`.
fn state_line(rt: &impl Print, step: &Stepped) {
    match step.answer {
        Ok(Some(KeyOut { len, value })) => {
            let key = KeyText(first(&step.walk.cursor.buf, len));
            line(rt, b"", format_args!("key {key} {value} {}", State(step)));
        }
        Ok(None) => line(rt, b"", format_args!("none {}", State(step))),
        Err(decline) => line(rt, b"", format_args!("fault {decline}")),
    }
}

// The last lines of a walk that has come to its end.
fn ending(rt: &impl Print, name: &[u8], form: Form, keys: usize, moves: usize) {
    if form == Form::States {
        return line(rt, b"", format_args!("total {moves}"));
    }
    if form == Form::Total {
        line(rt, name, format_args!(" keys {keys}"));
    }
    line(rt, name, " none");
    if matches!(form, Form::Moves | Form::Lent) {
        line(rt, name, format_args!(" moves {moves}"));
    }
}

// A line that tells of a decline.
fn declined(rt: &impl Print, name: &[u8], decline: Decline) {
    line(rt, name, format_args!(" declined {decline}"));
}

// A step over an image eight bytes shorter: its number, and the walk after it.
fn foreign(rt: &impl Print, request: &Request<Form>, walk: Walk) -> Walk {
    let Some(shorter) = request.image.len().checked_sub(8) else {
        return walk;
    };
    let step = scan::step::step(walk, first(request.image, shorter));
    if let Err(decline) = step.answer {
        declined(rt, request.name, decline);
    }
    step.walk
}

// The answers of a walk, up to the first that is no key. (Its loop is no function over a closure, as `requests::each` is, though `indented` and
// bench_loops have such loops too: what each does with a step is nearly all of it, and this one steps in three ways and ends on a decline in its
// own.)
fn answers(rt: &impl Print, request: &Request<Form>, start: Walk) {
    let name = request.name;
    let form = request.form;
    let image = request.image;
    let mut walk = start;
    let mut moves = 0usize;
    for keys in 0..image.len() {
        if form == Form::Foreign {
            walk = foreign(rt, request, walk);
        }
        let step = form.step(walk, image);
        walk = step.walk;
        moves = moves.wrapping_add(step.moves);
        if form == Form::States {
            state_line(rt, &step);
        }
        match step.answer {
            Ok(Some(KeyOut { len, value })) => {
                if form.shows_keys() {
                    let key = KeyText(first(&walk.cursor.buf, len));
                    line(rt, name, format_args!(" key {key} {value}"));
                }
            }
            Ok(None) => return ending(rt, name, form, keys, moves),
            Err(_) if form == Form::States => break,
            Err(decline) => return declined(rt, name, decline),
        }
    }
}

// A placing's number, and where it was not declined the walk's answers.
fn walked(rt: &impl Print, request: &Request<Form>) {
    let placed = placed(request);
    line(rt, request.name, format_args!(" placed {}", placed.code()));
    if let Ok(walk) = placed.accepted() {
        answers(rt, request, walk);
    }
}

// A walk in `States`, with an empty line after it.
fn states(rt: &impl Print, request: &Request<Form>) {
    match placed(request).accepted() {
        Ok(walk) => answers(rt, request, walk),
        Err(decline) => line(rt, b"", format_args!("error {decline}")),
    }
    line(rt, b"", "");
}

// What the check says of an image, in `Check` with its counts; whether it accepts it.
fn checked(rt: &impl Print, request: &Request<Form>) -> bool {
    let name = request.name;
    let checked = verify::check_image(request.image);
    match checked {
        Ok(counts) if request.form == Form::Check => {
            line(rt, name, format_args!(" accepted {counts}"));
        }
        Ok(_) => line(rt, name, " accepted"),
        Err(decline) => declined(rt, name, decline),
    }
    checked.is_ok()
}

// The bound test: the side, and the comparisons. (Here and above the handle goes beside the request, as each print takes it.)
fn tested(rt: &impl Print, request: &Request<Form>) {
    let tested = range_bound::test(request.kind, request.bound, request.cursor);
    let side = match tested.side {
        Side::Inside => "inside",
        Side::AtEnd => "at end",
        Side::Past => "past",
    };
    let comparisons = tested.comparisons;
    line(rt, request.name, format_args!(" {side} {comparisons}"));
}

// The answers of a request in its form.
fn answer(rt: &impl Print, request: &Request<Form>) {
    match request.form {
        Form::Bound => tested(rt, request),
        Form::States => states(rt, request),
        Form::Check => {
            checked(rt, request);
        }
        Form::Total => {
            if checked(rt, request) {
                walked(rt, request);
            }
        }
        Form::Keys | Form::Moves | Form::Foreign | Form::Lent | Form::End => walked(rt, request),
    }
}

/// Reads requests until the input ends and prints their answers.
pub fn run(rt: &(impl Input + Print)) {
    requests::each(
        &mut rt.reader(),
        MOST,
        &mut |request, _| {
            answer(rt, request);
            Some(())
        },
    );
}
