// The listing, run by the gate on no input at all.
#![tactic(auto)]

fn main(rt: HostRuntime) {
    sheet_out::run(&rt);
}
