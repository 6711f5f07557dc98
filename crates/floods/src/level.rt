// The radios whose number is at least a level, as a set of eight words: over whom a flood at the level goes.
ghost use Rattle.std.specs.Prelude.{◌≡◌, ◌≤◌};
ghost use Rattle.lists.specs.Kit.{length};
ghost use Rattle.mesh.specs.Limits.{max_radios};
ghost use Rattle.floods.specs.Floods.{LevelWord, LevelSet};

use rows::sets::RadioSet;

// Of the radios from `first` on, 64 or as many as there are, the ones whose number is at least the level, a bit for each.
fn level_word(numbers: &[u8], level: u8, first: usize) -> u64
    requires { first ≤ max_radios }
    ensures { LevelWord numbers.now level first result }
{
    if numbers.len() <= first {
        return 0;
    }
    let many = tables::fill::least(numbers.len() - first, 64);
    let mut word: u64 = 0;
    for i in 0..many {
        word = word | ((level <= numbers[first + i]) as u64) << i as u32;
    }
    word
}

// The radios whose number is at least the level.
pub fn at_least(numbers: &[u8], level: u8) -> RadioSet
    ensures level { LevelSet numbers.now level result }
    ensures long { length result ≡ 8 }
{
    let mut words = [0u64; rows::ROW_WORDS as usize];
    for k in 0..rows::ROW_WORDS as usize {
        words[k] = level_word(numbers, level, 64 * k);
    }
    RadioSet::of(words)
}
