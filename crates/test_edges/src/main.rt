// Document 01's cases that are not marked: n of 0, 1, 512 and 513; 252 and 253 radios; 126 and 127 links; 33 radios all linked, and 41.
// Each site is cleared, its links are taken up, and then one link more; printed are the answers, the tables and the image, byte
// by byte, with a buffer that is one byte short, just right, and longer. At the end the one comparison made here, which counts
// bytes that are not to be written, is put to a buffer where it must count. The expected text is worked out by oracle/edges.py.
#![tactic(auto)]

mod pictures;
mod say;
mod site;

use site::Shape;
use std::io;

fn main(rt: HostRuntime) -> io::Result<()> {
    site::run(&rt, Shape::Alone, 0)?;
    site::run(&rt, Shape::Alone, 1)?;
    site::run(&rt, Shape::Alone, 252)?;
    site::run(&rt, Shape::Alone, 253)?;
    site::run(&rt, Shape::Alone, 512)?;
    site::run(&rt, Shape::Alone, 513)?;
    site::run(&rt, Shape::Line, 126)?;
    site::run(&rt, Shape::Line, 127)?;
    site::run(&rt, Shape::All, 33)?;
    site::run(&rt, Shape::All, 41)?;
    site::run(&rt, Shape::All, 42)?;
    pictures::canary(&rt)
}
