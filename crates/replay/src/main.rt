// Walks that the Rust has made, made again: every step's answer, moves and state are held to the Rust's own, up to the included end.
#![tactic(auto)]

fn main(rt: HostRuntime) {
    runner::run(&rt);
}
