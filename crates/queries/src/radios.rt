// A radio's number, its neighbour count, whether two radios are linked, which of two stands first in the order.
// Each is refused by questions 1 to 4, or answers the value.
ghost use Rattle.std.specs.Prelude.{◌≡◌};
ghost use Rattle.mesh.specs.Lent.{read_of};
ghost use Rattle.mesh.specs.Sound.{sound};
ghost use Rattle.calls.specs.Answers.{call_number, value_reply};
ghost use Rattle.calls.specs.Questions.{lengths_of, pair_refusal};
ghost use Rattle.calls.specs.Outcomes.{first_of_two};
ghost use Rattle.calls.specs.CallContracts.{NumberContract, NeighboursContract, LinkedContract, FirstContract};

use calls::Refusal;
use mesh::Lent;

// Questions 1 to 4 of two radios.
fn ask_pair(t: &Lent, a: u32, b: u32) -> Result<(), Refusal>
    ensures { call_number result ≡ pair_refusal t.now.radios a b (lengths_of (read_of t.now))
        (sound t.now.radios (read_of t.now)) }
{
    if let Err(refusal) = soundness::wake::ask_radio(t, a) {
        return Err(refusal);
    }
    if t.radios <= b {
        return Err(Refusal::Radio);
    }
    Ok(())
}

// The number of v.
pub fn number(t: &Lent, v: u32) -> Result<u32, Refusal>
    ensures { NumberContract t.now.radios v (read_of t.now) (value_reply result) }
{
    if let Err(refusal) = soundness::wake::ask_radio(t, v) {
        return Err(refusal);
    }
    let x = t.numbers[v as usize];
    Ok(x as u32)
}

// How many neighbours v has.
pub fn neighbours(t: &Lent, v: u32) -> Result<u32, Refusal>
    ensures { NeighboursContract t.now.radios v (read_of t.now) (value_reply result) }
{
    if let Err(refusal) = soundness::wake::ask_radio(t, v) {
        return Err(refusal);
    }
    Ok(rows::row_degree(t.links, v) as u32)
}

// 1 when a and b are linked, 0 when not.
pub fn linked(t: &Lent, a: u32, b: u32) -> Result<u32, Refusal>
    ensures { LinkedContract t.now.radios a b (read_of t.now) (value_reply result) }
{
    if let Err(refusal) = ask_pair(t, a, b) {
        return Err(refusal);
    }
    Ok(rows::is_marked(t.links, a, b) as u32)
}

// Which of a and b stands first in the list; a where neither does.
fn first_of_two(order: &[u16], a: u32, b: u32) -> u32
    ensures { result ≡ first_of_two a b order.now }
{
    for entry in order {
        let x = *entry as u32;
        if x == a {
            return a;
        }
        if x == b {
            return b;
        }
    }
    a
}

// Which of a and b stands first in the order; the same radio twice: that radio.
pub fn first(t: &Lent, a: u32, b: u32) -> Result<u32, Refusal>
    ensures { FirstContract t.now.radios a b (read_of t.now) (value_reply result) }
{
    if let Err(refusal) = ask_pair(t, a, b) {
        return Err(refusal);
    }
    Ok(first_of_two(t.order, a, b))
}
