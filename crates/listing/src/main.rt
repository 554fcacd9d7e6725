// Lists the image on standard input: its sheet, edition 1, or `refused n` where it is declined.
#![tactic(auto)]

fn main(rt: HostRuntime) {
    sheet_out::run(&rt);
}
