// 01's examples of a walk, and 02's of the short form, the included end and the bound test, executed: the requests of tools/examples.py.
#![tactic(auto)]

fn main(rt: HostRuntime) {
    runner::run(&rt);
}
