// The numbers after a verb, in the form that a script's numbers have: 0 to 65,535, no leading zeros.
ghost use Rattle.std.specs.Prelude.{◌≡◌};
ghost use Rattle.site_program.specs.Given.{given_of};

use script::lines;

// The numbers after a verb; one that it does not take is 0.
#[derive(Clone, Copy)]
pub struct Numbers {
    pub v: u32,
    pub k: u32,
}

// The numbers of a verb that takes `takes` of them and is given `count` words; none where they are not as many, or of another form.
pub(crate) fn given(takes: usize, count: usize, v: &[u8], k: &[u8]) -> Option<Numbers>
    ensures { result ≡ given_of takes count v.now k.now }
{
    if takes != count {
        return None;
    }
    if takes == 0 {
        return Some(Numbers { v: 0, k: 0 });
    }
    let a = lines::read_alone(v)?;
    if takes == 1 {
        return Some(Numbers { v: a, k: 0 });
    }
    let b = lines::read_alone(k)?;
    Some(Numbers { v: a, k: b })
}
