// Expectations that are wrong on purpose, put to the same comparisons as every call's: where a comparison is switched off, fewer
// of them are found.
use super::play;
use super::play::Counts;
use calls::Reply;
use test_model::expected::Owed;
use test_model::model;
use test_model::model::{Model, Tables};

// The entry past the site's, whatever its size.
const PAST: usize = 512;

// Whether the tables pass for the expected ones where one expected entry is changed. It is changed back.
fn passes(at: usize, n: u32, t: &Tables, model: &mut Model) -> bool {
    let x = model.get(at, 0);
    model.put(at, 0, x ^ 1);
    let same = play::is_expected(n, t, model);
    model.put(at, 0, x);
    same
}

// Counts the changed entries that are found: a link, and of numbers, order and answer the first entry and one past the site's.
fn entries(n: u32, t: &Tables, model: &mut Model, counts: &mut Counts) {
    let places = [
        0,
        model::NUMBERS,
        model::NUMBERS + PAST,
        model::ORDER,
        model::ORDER + PAST,
        model::ANSWER,
        model::ANSWER + PAST,
    ];
    for at in places {
        let same = passes(at, n, t, model);
        counts.found(!same);
    }
}

// Counts an answer that is not the one owed.
fn answer_of(number: u32, step: i8, count: u32, counts: &mut Counts) {
    let reply = Reply {
        number: 0,
        step: 1,
        count: 2,
    };
    let same = play::is_owed(
        reply,
        Owed {
            number,
            step,
            count,
        },
    );
    counts.found(!same);
}

// Puts all of them, after a history: the tables are the expected ones, and sound.
pub fn put(n: u32, t: &Tables, model: &mut Model, counts: &mut Counts) {
    entries(n, t, model, counts);
    answer_of(1, 1, 2, counts);
    answer_of(0, 0, 2, counts);
    answer_of(0, 1, 1, counts);
    counts.found(!play::verdicts_agree(n, false, t));
}
