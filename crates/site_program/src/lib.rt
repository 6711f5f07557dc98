// The program `site` as a library: reads an image or a script from its input, and prints what a verb says of its site. The input is
// read to its end and checked before anything is printed. What goes wrong is one line on the error output, and status 1.
#![tactic(auto)]

ghost use Rattle.std.specs.Prelude.{◌≡◌, ◌≤◌};
ghost use Rattle.lists.specs.Kit.{length};
ghost use Rattle.mesh.specs.Limits.{max_radios};
ghost use Rattle.mesh.specs.Lent.{read_of};
ghost use Rattle.calls.specs.Answers.{call_number};
ghost use Rattle.player.specs.Reads.{NotFailed};
ghost use Rattle.site_program.specs.Inputs.{wrong};
ghost use Rattle.site_program.specs.Given.{is_name};
ghost use Rattle.site_program.specs.Room.{text_room, Held};
ghost use Rattle.site_program.specs.Said.{Said};
ghost use Rattle.site_program.specs.Status.{Prints, Answers, InputAnswers, SiteStatus};

mod answers;
mod arguments;
mod course;
mod help;
mod images;
mod kinds;
mod listing;
mod names;
mod refusals;
mod sizes;
mod source;
mod trees;
mod verbs;
pub mod words;

use arguments::Numbers;
use calls::Refusal;
use mesh::{Lent, Site};
use player::input::{Ends, State};
use player::words::WORD_BYTES;
use player::{faults, input};
use std::env::Env;
use std::fs::Files;
use std::io::{IsTerminal, Read, Write};
use verbs::Verb;

// The text of a verb, in a buffer that holds every text: whatever the tables are, no verb is refused by 9, 12 or 13.
fn text_of(verb: Verb, given: Numbers, t: &Lent, out: &mut [u8]) -> Result<usize, Refusal>
    requires { text_room ≤ length out.old }
    ensures held { Held (call_number result) }
    ensures said { Said verb given.v given.k t.now.radios (read_of t.now) out.old result out.new }
{
    verbs::answer(verb, given, t, out)
}

// Prints what the verb says of the site: the status.
fn print<I, O: Write, E: Write>(
    ends: &mut Ends<I, O, E>,
    verb: Verb,
    given: Numbers,
    t: &Lent,
) -> u32
    ensures { Prints verb given t.now.radios (read_of t.now) result }
{
    let mut out = [0u8; sizes::TEXT_BYTES];
    match text_of(verb, given, t, &mut out) {
        Ok(size) => {
            let length = input::within(size, &out);
            faults::print(ends, b"site", &out[..length])
        }
        Err(refusal) => refusals::say_call(&mut ends.errors, refusal),
    }
}

// Reads the site into the tables and prints: the status. `state` is what the last read of the front found.
fn run_on<I: Read, O: Write, E: Write>(
    ends: &mut Ends<I, O, E>,
    most: usize,
    shown: bool,
    verb: Verb,
    given: Numbers,
    n: u32,
    front: &[u8],
    state: State,
    links: &mut [u8],
    numbers: &mut [u8],
    order: &mut [u16],
) -> u32
    requires { NotFailed state }
    ensures { Answers front.now state verb given result }
{
    let status = source::read(ends, most, shown, n, front, state, links, numbers, order);
    if status != 0 {
        return status;
    }
    let t = Lent {
        radios: n,
        links,
        numbers,
        order,
    };
    print(ends, verb, given, &t)
}

// The same on a site of n radios, whose tables are parts of the largest ones.
fn run_site<I: Read, O: Write, E: Write>(
    ends: &mut Ends<I, O, E>,
    most: usize,
    shown: bool,
    verb: Verb,
    given: Numbers,
    n: u32,
    front: &[u8],
    state: State,
) -> u32
    requires few { n ≤ max_radios }
    requires unbroken { NotFailed state }
    ensures { Answers front.now state verb given result }
{
    let many = n as usize;
    let bytes = Site::ROW_BYTES * many;
    let mut links = [0u8; sizes::TABLE_BYTES];
    let mut numbers = [0u8; Site::RADIOS as usize];
    let mut order = [0u16; Site::RADIOS as usize];
    run_on(
        ends,
        most,
        shown,
        verb,
        given,
        n,
        front,
        state,
        &mut links[..bytes],
        &mut numbers[..many],
        &mut order[..many],
    )
}

// Goes on by the kind of the input, of which the front is read: the status.
fn run_front<I: Read, O: Write, E: Write>(
    ends: &mut Ends<I, O, E>,
    most: usize,
    shown: bool,
    verb: Verb,
    given: Numbers,
    front: &[u8],
    state: State,
) -> u32
    requires { NotFailed state }
    ensures { Answers front.now state verb given result }
{
    if front.len() == 0 {
        return refusals::say(&mut ends.errors, b"the input is empty");
    }
    match source::radios(front) {
        Some(n) => run_site(ends, most, shown, verb, given, n, front, state),
        None => refusals::say_line(&mut ends.errors, 1, course::first_fault(front)),
    }
}

// Reads the front of the input, which holds any image whole, and goes on: the status.
fn run_input<I: Read, O: Write, E: Write>(
    ends: &mut Ends<I, O, E>,
    most: usize,
    shown: bool,
    verb: Verb,
    given: Numbers,
) -> u32
    ensures { InputAnswers verb given result }
{
    let mut buffer = [0u8; sizes::FRONT_BYTES];
    let got = input::fill(&mut ends.input, most, false, &mut buffer);
    let front = &buffer[..got.count];
    match got.state {
        State::Failed(why) => refusals::say_unread(&mut ends.errors, why),
        State::GoesOn | State::End => {
            run_front(ends, most, shown, verb, given, front, got.state)
        }
    }
}

// Whether the word may be a file's name: it does not begin with a digit.
fn is_name(word: &[u8]) -> bool
    ensures { result ≡ is_name word.now }
{
    if word.len() == 0 {
        return true;
    }
    let byte = word[0];
    if byte < b'0' {
        return true;
    }
    b'9' < byte
}

// A verb with words that it does not take.
fn say_words<E: Write>(errors: &mut E, verb: Verb, word: &[u8], v: &[u8]) -> u32
    ensures { result ≡ wrong }
{
    let takes = verbs::takes(verb);
    if takes == 0 {
        if is_name(v) {
            return refusals::say_file(errors, word);
        }
    }
    refusals::say_usage(errors, word, takes)
}

// Runs a verb with the words after it, of which there are `count`: the status, 0 or 1. A read asks for at most `most` bytes;
// where `shown` is set, a long script shows its line on the error output.
fn run_verb<I: Read, O: Write, E: Write>(
    ends: &mut Ends<I, O, E>,
    most: usize,
    shown: bool,
    word: &[u8],
    count: usize,
    v: &[u8],
    k: &[u8],
) -> u32
    ensures { SiteStatus word.now count v.now k.now result }
{
    let verb = verbs::verb_of(word);
    match verb {
        Verb::Unknown => return refusals::say(
            &mut ends.errors,
            b"unknown verb; site help lists them",
        ),
        Verb::Help => return faults::print(ends, b"site", &help::PAGE),
        _ => {}
    }
    match arguments::given(verbs::takes(verb), count, v, k) {
        Some(given) => run_input(ends, most, shown, verb, given),
        None => say_words(&mut ends.errors, verb, word, v),
    }
}

// The same, and the words that ask what the program is.
pub fn run<I: Read, O: Write, E: Write>(
    ends: &mut Ends<I, O, E>,
    most: usize,
    shown: bool,
    word: &[u8],
    count: usize,
    v: &[u8],
    k: &[u8],
) -> u32
    ensures { SiteStatus word.now count v.now k.now result }
{
    if tables::fill::is_same(word, b"--help") {
        return faults::print(ends, b"site", &help::PAGE);
    }
    if tables::fill::is_same(word, b"--version") {
        return faults::print(ends, b"site", &input::VERSION);
    }
    run_verb(ends, most, shown, word, count, v, k)
}

// Runs the verb that is word `at` of the command, with the words after it: the status.
fn run_at<R: Env, I: Read, O: Write, E: Write + IsTerminal>(
    env: &R,
    ends: &mut Ends<I, O, E>,
    at: usize,
) -> u32
    ensures { result ≤ 1 }
{
    let mut verb = [0u8; WORD_BYTES];
    let mut v = [0u8; WORD_BYTES];
    let mut k = [0u8; WORD_BYTES];
    let after = at.wrapping_add(1);
    let verb_bytes = player::words::word_at(env, at, &mut verb);
    let v_bytes = player::words::word_at(env, after, &mut v);
    let k_bytes = player::words::word_at(env, at.wrapping_add(2), &mut k);
    let count = player::words::count(env).wrapping_sub(after);
    let shown = input::is_terminal(&ends.errors);
    run(
        ends,
        usize::MAX,
        shown,
        &verb[..verb_bytes],
        count,
        &v[..v_bytes],
        &k[..k_bytes],
    )
}

// Runs the program with the words that it is started with on these ends, and tells its status.
pub fn start_on<R: Env + Files, I: Read, O: Write, E: Write + IsTerminal>(
    rt: &R,
    ends: &mut Ends<I, O, E>,
) {
    let started = player::words::started(rt);
    let status = run_at(rt, ends, started.at);
    player::words::tell(rt, ends, started.told, status);
}

// The same on the program's own input, output and errors.
pub fn start(rt: &HostRuntime) {
    start_on(rt, &mut input::standard(rt));
}
