// Scripts of pseudo-random sites (document 02, W-203), as a host has them: each is measured, written into buffers that are a byte short,
// just right and longer, and printed; it is then played twice: through the player, which prints answers, numbers and order, and line by
// line on tables of the host's own, which are compared with the site's. The expected text is worked out by oracle/rebuilt.py.
use crate::{back, refused, site};
use std::io;

pub fn play(rt: &HostRuntime) -> io::Result<()> {
    site::run(rt, 1, 1, 3, 1)?;
    site::run(rt, 2, 2, 1, 5)?;
    site::run(rt, 7, 7, 60, 3)?;
    site::run(rt, 12, 12, 90, 4)?;
    site::run(rt, 45, 43, 1200, 5)?;
    site::run(rt, 100, 100, 120, 6)?;
    site::run(rt, 512, 512, 150, 7)?;
    refused::run(rt)?;
    back::canary(rt)
}
