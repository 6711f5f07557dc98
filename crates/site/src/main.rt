// The program `site`: prints what a verb says of the site on standard input.
#![tactic(auto)]

fn main(rt: HostRuntime) {
    site_program::start(&rt);
}
