// The table of verbs. A new verb has a line in the functions here, and one in `answers::answer`.
ghost use Rattle.std.specs.Prelude.{◌≡◌};
ghost use Rattle.lists.specs.Kit.{cond};
ghost use Rattle.lists.specs.Lists.{same};
ghost use Rattle.site_program.specs.Names.{plain_verb_of, verb_of, numbers_of};

use tables::fill::is_same;

#[derive(Clone, Copy)]
pub enum Verb {
    Help,
    Check,
    Numbers,
    Sheet,
    Script,
    Image,
    Backbone,
    Staircase,
    Tree,
    Core,
    Lift,
    Unknown,
}

// The verb of this name, where the word is the name; else the other.
fn named(word: &[u8], name: &[u8], verb: Verb, other: Verb) -> Verb
    ensures { result ≡ cond (same word.now name.now) verb other }
{
    if is_same(word, name) {
        return verb;
    }
    other
}

// The verbs that print what one call of the engine writes, or no call's.
fn plain_verb_of(word: &[u8]) -> Verb
    ensures { result ≡ plain_verb_of word.now }
{
    let image = named(word, b"image", Verb::Image, Verb::Unknown);
    let script = named(word, b"script", Verb::Script, image);
    let sheet = named(word, b"sheet", Verb::Sheet, script);
    let numbers = named(word, b"numbers", Verb::Numbers, sheet);
    let check = named(word, b"check", Verb::Check, numbers);
    named(word, b"help", Verb::Help, check)
}

// The verb of a word; `Unknown` where it is none.
pub fn verb_of(word: &[u8]) -> Verb
    ensures { result ≡ verb_of word.now }
{
    let plain = plain_verb_of(word);
    let lift = named(word, b"lift", Verb::Lift, plain);
    let core = named(word, b"core", Verb::Core, lift);
    let tree = named(word, b"tree", Verb::Tree, core);
    let staircase = named(word, b"staircase", Verb::Staircase, tree);
    named(word, b"backbone", Verb::Backbone, staircase)
}

// How many numbers the verb takes.
pub fn takes(verb: Verb) -> usize
    ensures { result ≡ numbers_of verb }
{
    match verb {
        Verb::Help => 0,
        Verb::Check => 0,
        Verb::Numbers => 0,
        Verb::Sheet => 0,
        Verb::Script => 0,
        Verb::Image => 0,
        Verb::Backbone => 0,
        Verb::Staircase => 0,
        Verb::Tree => 0,
        Verb::Core => 2,
        Verb::Lift => 1,
        Verb::Unknown => 0,
    }
}
