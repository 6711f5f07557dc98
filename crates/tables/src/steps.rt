// The step of a link call, a signed number, added to the numbers of the changed radios.
// Nothing is refused: a number stays from 0 to 255, and a listed radio past the numbers is passed over.
ghost use Rattle.std.specs.Prelude.{◌≡◌};
ghost use Rattle.lists.specs.Kit.{take};
ghost use Rattle.tables.specs.Steps.{stepped, step_at, all_stepped};

// The number x with the step added: 0 where the sum is below 0, 255 where it is above 255.
pub fn stepped(x: u8, step: i8) -> u8
    ensures { result ≡ stepped x step }
{
    let sum = x as i16 + step as i16;
    if sum < 0 {
        return 0;
    }
    if 255 < sum {
        return 255;
    }
    sum as u8
}

// The number of radio v is stepped after, the others keep theirs; all do where there is no radio v.
fn step_at(numbers: &mut [u8], v: usize, step: i8)
    ensures { numbers.new ≡ step_at v step numbers.old }
{
    if v < numbers.len() {
        numbers[v] = stepped(numbers[v], step);
    }
}

// The numbers of the first k radios of the list are stepped after, one after the other.
pub fn step_numbers(numbers: &mut [u8], changed: &[u16], k: u32, step: i8)
    ensures { numbers.new ≡ all_stepped (take k changed.now) step numbers.old }
{
    let m = super::fill::least(k as usize, changed.len());
    for i in 0..m {
        step_at(numbers, changed[i] as usize, step);
    }
}
