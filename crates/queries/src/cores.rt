// The connected core of a radio at a level: the radios that links lead to over radios with that number or more.
ghost use Rattle.std.specs.Prelude.{◌≡◌};
ghost use Rattle.mesh.specs.Tables.{graph_in};
ghost use Rattle.mesh.specs.Lent.{read_of};
ghost use Rattle.mesh.specs.Sound.{sound};
ghost use Rattle.calls.specs.Answers.{call_number, value_reply};
ghost use Rattle.calls.specs.Questions.{lengths_of};
ghost use Rattle.calls.specs.CallContracts.{CoreContract};
ghost use Rattle.calls.specs.Chains.{core_refusal};

use calls::Refusal;
use mesh::{Lent, Site};

// Questions 1 to 4 and 8, where `answer` is the length of the answer table.
fn ask_core(t: &Lent, v: u32, k: u32, answer: usize) -> Result<(), Refusal>
    ensures { call_number result ≡ core_refusal t.now.radios v k (lengths_of (read_of t.now)) answer
        (sound t.now.radios (read_of t.now)) (graph_in t.now.radios t.now.links.now) }
{
    if let Err(refusal) = soundness::ask(t, t.radios as usize <= answer) {
        return Err(refusal);
    }
    if t.radios <= v {
        return Err(Refusal::Radio);
    }
    if (t.numbers[v as usize] as u32) < k {
        return Err(Refusal::Level);
    }
    Ok(())
}

// The count of the connected core of v at level k; its radios stand ascending in front of the answer table, and later entries keep
// their content. Refused by questions 1 to 4 and 8, it leaves the answer table as it was.
pub fn core(t: &Lent, v: u32, k: u32, answer: &mut [u16]) -> Result<u32, Refusal>
    ensures { CoreContract t.now.radios v k (read_of t.now) answer.old (value_reply result) answer.new }
{
    if let Err(refusal) = ask_core(t, v, k, answer.len()) {
        return Err(refusal);
    }
    let mut set = floods::level::at_least(t.numbers, k as u8);
    let mut rest = set;
    let mut queue = [0u16; Site::RADIOS as usize];
    floods::flood::flood(t.links, v, &mut rest, &mut queue);
    set.take_set(&rest);
    Ok(set.list(answer))
}
