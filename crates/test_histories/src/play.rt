// A history, played on the engine and on the expected tables beside it, compared after every call.
use super::picking::Plan;
use super::trouble::Trouble;
use super::{canaries, engine, picking, trouble};
use calls::Reply;
use test_model::expected::{Call, Owed};
use test_model::model::{Model, Tables};
use test_model::{expected, own_check, same};

// The refusal numbers of a link call: 0 to 7.
const ANSWERS: usize = 8;

// What is counted: calls by refusal number, then the changed radios, the calls, the calls that differ, and the wrong expectations
// that are found.
#[derive(Clone, Copy)]
pub struct Counts {
    pub answers: [u64; ANSWERS],
    pub changed: u64,
    pub calls: u64,
    pub different: u64,
    pub canaries: u64,
}

impl Counts {
    pub fn none() -> Self {
        Self {
            answers: [0; ANSWERS],
            changed: 0,
            calls: 0,
            different: 0,
            canaries: 0,
        }
    }

    // Adds the counts of a history.
    pub fn add(&mut self, other: &Counts) {
        for i in 0..ANSWERS {
            self.answers[i] = self.answers[i].wrapping_add(other.answers[i]);
        }
        self.changed = self.changed.wrapping_add(other.changed);
        self.calls = self.calls.wrapping_add(other.calls);
        self.different = self.different.wrapping_add(other.different);
        self.canaries = self.canaries.wrapping_add(other.canaries);
    }

    // Counts a wrong expectation, where it was found.
    pub fn found(&mut self, found: bool) {
        self.canaries = self.canaries.wrapping_add(found as u64);
    }

    // Counts a call.
    fn tally(&mut self, told: Answer) {
        let i = told.reply.number as usize % ANSWERS;
        self.answers[i] = self.answers[i].wrapping_add(1);
        self.changed = self.changed.wrapping_add(told.reply.count as u64);
        self.calls = self.calls.wrapping_add(1);
        self.different = self.different.wrapping_add(!told.fine as u64);
    }
}

// Entries of numbers, order and answer past the site's hold these values.
const NUMBER: u8 = 77;

const RADIO: u16 = 7777;

// Whether the engine's check and the test by hand both say what is expected of the site's tables.
pub fn verdicts_agree(n: u32, sound: bool, t: &Tables) -> bool {
    engine::is_sound(n, t) == sound && own_check::is_sound(n as usize, t) == sound
}

// Spoils the tables where that is the call's trouble; whether the verdicts on them agree then.
fn spoil(call: Call, n: u32, wrong: Option<Trouble>, t: &mut Tables) -> bool {
    trouble::spoil(wrong, t);
    !call.spoiled || verdicts_agree(n, false, t)
}

// The engine's reply, and whether spoiled tables were found out; of a compared call, whether all is as expected.
#[derive(Clone, Copy)]
struct Answer {
    reply: Reply,
    fine: bool,
}

// Carries the call out on the engine's tables, spoiled for it where that is its trouble.
fn answer_of(call: Call, n: u32, wrong: Option<Trouble>, t: &mut Tables) -> Answer {
    let fine = spoil(call, n, wrong, t);
    let reply = engine::link(
        call,
        &mut t.links,
        &mut t.numbers,
        &mut t.order,
        &mut t.answer,
    );
    trouble::spoil(wrong, t);
    Answer { reply, fine }
}

// Whether the reply is what is owed.
pub fn is_owed(reply: Reply, owed: Owed) -> bool {
    let given = Owed {
        number: reply.number,
        step: reply.step,
        count: reply.count,
    };
    given == owed
}

// Whether every entry of the tables is what is expected, and they are sound.
pub fn is_expected(n: u32, t: &Tables, model: &Model) -> bool {
    same::tables(t, model, n as usize) && verdicts_agree(n, true, t)
}

// Puts the call to the engine and to the expected site, and compares: the reply has to be what is owed, with tables that are the expected
// ones, and spoiled ones must have been found out.
fn put_call(
    call: Call,
    n: u32,
    wrong: Option<Trouble>,
    t: &mut Tables,
    model: &mut Model,
) -> Answer {
    let given = answer_of(call, n, wrong, t);
    let owed = expected::expect(call, model);
    let same = is_expected(n, t, model);
    Answer {
        reply: given.reply,
        fine: same && given.fine && is_owed(given.reply, owed),
    }
}

// Call i of the history. The random number to go on from.
fn one_call(
    plan: Plan,
    i: u32,
    x: u64,
    t: &mut Tables,
    model: &mut Model,
    counts: &mut Counts,
) -> u64 {
    let picked = picking::pick(plan, i, x, model);
    let (wrong, further) = trouble::draw(plan.n, picked.x);
    let plain = expected::plain(plan.n, picked.up, picked.a, picked.b);
    let call = trouble::troubled(plain, wrong);
    let told = put_call(call, plan.n, wrong, t, model);
    counts.tally(told);
    further
}

// All calls of the history.
fn all_calls(plan: Plan, t: &mut Tables, model: &mut Model, counts: &mut Counts) {
    let mut x = plan.seed;
    for i in 0..plan.calls {
        x = one_call(plan, i, x, t, model, counts);
    }
}

// Plays the history from a cleared site, counts its calls, and puts the wrong expectations.
pub fn play(plan: Plan) -> Counts {
    let mut t = Tables::full(NUMBER, RADIO);
    let mut model = Model::new();
    let mut counts = Counts::none();
    let _ = engine::clear(plan.n, &mut t.links, &mut t.numbers, &mut t.order);
    model.clear(plan.n as usize, NUMBER as u16, RADIO);
    all_calls(plan, &mut t, &mut model, &mut counts);
    canaries::put(plan.n, &t, &mut model, &mut counts);
    counts
}
