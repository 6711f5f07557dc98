// The stretch of a level in the order.
ghost use Rattle.std.specs.Prelude.{◌≡◌, ◌≤◌, ◌*◌};
ghost use Rattle.lists.specs.Kit.{length};
ghost use Rattle.plan.specs.Places.{level_start, level_size};

use tables::fill;

// So many numbers are counted in bytes at a time.
const PART: usize = 128;

// Where a stretch starts, and how long it is.
#[derive(Clone, Copy)]
pub struct Stretch {
    pub start: usize,
    pub size: usize,
}

// How many of some numbers are below a level, and how many are equal to it.
#[derive(Clone, Copy)]
struct Counts {
    below: u8,
    equal: u8,
}

// Counts the numbers of a part, so few that a byte is enough for a count.
fn count_part(part: &[u8], level: u8) -> Counts
    requires { length part.now ≤ 255 }
    ensures started { result.below ≡ level_start part.now level }
    ensures sized { result.equal ≡ level_size part.now level }
{
    let mut below: u8 = 0;
    let mut equal: u8 = 0;
    for x in part {
        below += (*x < level) as u8;
        equal += (*x == level) as u8;
    }
    Counts { below, equal }
}

// The stretch of the level: after as many entries as there are numbers below it, as long as there are numbers equal to it. Counted part by
// part.
pub fn stretch_of(numbers: &[u8], level: u8) -> Stretch
    ensures { (result.start ≡ level_start numbers.now level) × (result.size ≡ level_size numbers.now level) }
{
    let mut start: usize = 0;
    let mut size: usize = 0;
    let mut i: usize = 0;
    while i < numbers.len() {
        let end = i + fill::least(PART, numbers.len() - i);
        let found = count_part(&numbers[i..end], level);
        start += found.below as usize;
        size += found.equal as usize;
        i = end;
    }
    Stretch { start, size }
}
