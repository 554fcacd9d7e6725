// The listing, run by the gate on an input of over 65,536 bytes.
#![tactic(auto)]

fn main(rt: HostRuntime) {
    sheet_out::run(&rt);
}
