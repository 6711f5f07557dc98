// The replay program: plays standard input.
#![tactic(auto)]

fn main(rt: HostRuntime) {
    player::start(&rt);
}
