// The later neighbours of a radio: how many, and the first of them in the order, through which the radio is woken.
ghost use Rattle.std.specs.Prelude.{◌≡◌};
ghost use Rattle.lists.specs.Kit.{length};
ghost use Rattle.mesh.specs.Lent.{read_of};
ghost use Rattle.mesh.specs.Sound.{sound};
ghost use Rattle.calls.specs.Questions.{lengths_of, radio_refusal};
ghost use Rattle.calls.specs.Answers.{call_number, later_reply};
ghost use Rattle.calls.specs.CallContracts.{LaterContract};
ghost use Rattle.soundness.specs.Checks.{SoundRadio, LaterCounted};

use crate::Found;
use calls::{Refusal, Wake};
use mesh::Lent;

// Questions 1 to 4 of one radio.
pub fn ask_radio(t: &Lent, v: u32) -> Result<(), Refusal>
    ensures { call_number result ≡ radio_refusal t.now.radios v (lengths_of (read_of t.now))
        (sound t.now.radios (read_of t.now)) }
{
    if let Err(refusal) = crate::ask(t, true) {
        return Err(refusal);
    }
    if t.radios <= v {
        return Err(Refusal::Radio);
    }
    Ok(())
}

// The later neighbours of radio v of sound tables, as the check counts them.
fn wake_of(t: &Lent, v: u32) -> Wake
    requires { SoundRadio (length t.now.order.now) v (read_of t.now) }
    ensures { LaterCounted (length t.now.order.now) v (read_of t.now) result.count result.first }
{
    let mut found = Found::new();
    crate::place(t.order, &mut found.places);
    let highest = crate::highest_words(t.numbers.len() as u32);
    match crate::count_ends(t, &found.places, &highest, v) {
        Some(ends) => Wake {
            count: ends.later as u32,
            first: ends.first as u32,
        },
        None => Wake { count: 0, first: 0 },
    }
}

// How many neighbours of v stand after it in the order, and the first of them. Refused by 1 to 4.
pub fn later_of(t: &Lent, v: u32) -> Result<Wake, Refusal>
    ensures { LaterContract t.now.radios v (read_of t.now) (later_reply result) }
{
    if let Err(refusal) = ask_radio(t, v) {
        return Err(refusal);
    }
    Ok(wake_of(t, v))
}
