// The check, executed: 01's limits on an image's length, and the table of tools/images.py, in which each image is in order or has
// one fault.
#![tactic(auto)]

use base::Decline;
use node::trailer;
use requests::line;

// What the length test says of a length.
fn length(rt: &impl Print, n: usize) {
    if trailer::is_length_ok(n) {
        line(rt, b"", format_args!("length {n} passes"));
    } else {
        line(
            rt,
            b"",
            format_args!("length {n} declined {}", Decline::ImageLength),
        );
    }
}

// The longest length, and the next.
fn main(rt: HostRuntime) {
    length(&rt, 16777216);
    length(&rt, 16777224);
    runner::run(&rt);
}
