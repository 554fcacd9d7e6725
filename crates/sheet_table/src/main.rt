// The sheets of named images (tools/examples.py): for each request of the input a line with its name, and the image's whole sheet.
#![tactic(auto)]

use requests::{Request, line};

// The requests: more than there are.
const MOST: usize = 1000;

// A request's lines; of its form nothing is asked.
fn answer(rt: &impl Print, request: &Request<u8>) {
    line(rt, request.name, "");
    sheet_out::put_sheet(rt, request.image);
}

fn main(rt: HostRuntime) {
    requests::each(
        &mut rt.reader(),
        MOST,
        &mut |request, _| {
            answer(&rt, request);
            Some(())
        },
    );
}
