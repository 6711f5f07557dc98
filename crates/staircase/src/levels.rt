// Levels: a link's weight is the smaller of its ends' numbers, so only levels that some radio has hold links. Nothing is refused.
ghost use Rattle.std.specs.Prelude.{◌≡◌};
ghost use Rattle.staircase.specs.Taking.{below, greatest_below};

// The number x where it is below the level; else 0.
fn number_below(x: u8, level: u8) -> u8
    ensures { result ≡ below level x }
{
    if x < level { x } else { 0 }
}

// The greatest number of the table that is below the level; 0 where there is none.
pub fn level_below(numbers: &[u8], level: u8) -> u8
    ensures { result ≡ greatest_below level numbers.now }
{
    let mut top: u8 = 0;
    for x in numbers {
        top = tables::numbers::larger(top, number_below(*x, level));
    }
    top
}
