// A file's sites: words of 32 bits, lowest byte first; past the file's end they are 0.
use std::io;
use std::io::Read;
use test_parts::words::word;

// A site: 1 where it begins anew, n, how much of each table is lent, one more than the byte of the links that is spoiled, or 0; the first radio asked
// for, how far the next one is, how many; and how many entries its list of links has.
#[derive(Clone, Copy)]
pub struct Site {
    pub fresh: u32,
    pub n: u32,
    pub links: usize,
    pub numbers: usize,
    pub order: usize,
    pub spoil: usize,
    pub start: u32,
    pub step: u32,
    pub asked: u32,
    pub list: usize,
}

// The next site.
pub fn next_site(file: &mut impl Read) -> io::Result<Site> {
    Ok(Site {
        fresh: word(file)?,
        n: word(file)?,
        links: word(file)? as usize,
        numbers: word(file)? as usize,
        order: word(file)? as usize,
        spoil: word(file)? as usize,
        start: word(file)?,
        step: word(file)?,
        asked: word(file)?,
        list: word(file)? as usize,
    })
}
