// What each public call promises: refusals, the answers and their form for C, and in specs/ the questions, the named predicate of every
// call, the link book and demand 3. proofs/ has demand 3, closed. There is no call here: the crates above meet the predicates.
#![tactic(auto)]

ghost use Rattle.std.specs.Prelude.{◌≡◌};
ghost use Rattle.calls.specs.Answers.{refusal_number, call_number, value_reply, link_reply, later_reply, pair_reply};

// Why a call is refused: the first of the questions of documents 01 and 02 that gets "no".
#[derive(Clone, Copy, PartialEq, Eq)]
pub enum Refusal {
    Size,
    Length,
    Unsound,
    Radio,
    SameEnds,
    LinkState,
    NoRoom,
    Level,
    ImageSize,
    ImageCheck,
    Image,
    Page,
    Text,
    Heard,
    OtherSize,
    Proposal,
    Mark,
    NoMark,
    MarksFull,
    NoLift,
}

// The number of the question.
impl From<Refusal> for u32 {
    ghost from_gives = { λ r x. x ≡ refusal_number r };

    fn from(refusal: Refusal) -> u32 {
        match refusal {
            Refusal::Size => 1,
            Refusal::Length => 2,
            Refusal::Unsound => 3,
            Refusal::Radio => 4,
            Refusal::SameEnds => 5,
            Refusal::LinkState => 6,
            Refusal::NoRoom => 7,
            Refusal::Level => 8,
            Refusal::ImageSize => 9,
            Refusal::ImageCheck => 10,
            Refusal::Image => 11,
            Refusal::Page => 12,
            Refusal::Text => 13,
            Refusal::Heard => 14,
            Refusal::OtherSize => 15,
            Refusal::Proposal => 16,
            Refusal::Mark => 17,
            Refusal::NoMark => 18,
            Refusal::MarksFull => 19,
            Refusal::NoLift => 20,
        }
    }
}

// What a link call changed: the step (+1, -1, or 0 when no number changed), and the count of changed radios.
#[derive(Clone, Copy)]
pub struct Change {
    pub step: i8,
    pub count: u32,
}

// The later neighbours of a radio: how many, and the first of them in the order, 65,535 when there are none.
#[derive(Clone, Copy)]
pub struct Wake {
    pub count: u32,
    pub first: u32,
}

// A pair of radios, the lower first.
#[derive(Clone, Copy)]
pub struct Ends {
    pub low: u32,
    pub high: u32,
}

// A call's number for C: 0 when it was carried out.
pub fn number(answer: Result<(), Refusal>) -> u32
    ensures { result ≡ call_number answer }
{
    match answer {
        Ok(()) => 0,
        Err(refusal) => u32::from(refusal),
    }
}

// The answer of a link call: refusal number, step (+1, -1, or 0 when nothing changed), count of changed radios.
#[repr(C)]
#[derive(Clone, Copy)]
pub struct Reply {
    pub number: u32,
    pub step: i8,
    pub count: u32,
}

impl From<Result<Change, Refusal>> for Reply {
    ghost from_gives = { λ answer reply. reply ≡ link_reply answer };

    fn from(answer: Result<Change, Refusal>) -> Reply {
        match answer {
            Ok(change) => Reply {
                number: 0,
                step: change.step,
                count: change.count,
            },
            Err(refusal) => Reply {
                number: u32::from(refusal),
                step: 0,
                count: 0,
            },
        }
    }
}

// The answer of a question: refusal number, and the value asked for.
#[repr(C)]
#[derive(Clone, Copy)]
pub struct Value {
    pub number: u32,
    pub value: u32,
}

impl From<Result<u32, Refusal>> for Value {
    ghost from_gives = { λ answer reply. reply ≡ value_reply answer };

    fn from(answer: Result<u32, Refusal>) -> Value {
        match answer {
            Ok(value) => Value { number: 0, value },
            Err(refusal) => Value {
                number: u32::from(refusal),
                value: 0,
            },
        }
    }
}

// document 02, W-206: The answer about the later neighbours of a radio: refusal number, their count, and the first of them in the order.
#[repr(C)]
#[derive(Clone, Copy)]
pub struct Later {
    pub number: u32,
    pub count: u32,
    pub first: u32,
}

impl From<Result<Wake, Refusal>> for Later {
    ghost from_gives = { λ answer reply. reply ≡ later_reply answer };

    fn from(answer: Result<Wake, Refusal>) -> Later {
        match answer {
            Ok(wake) => Later {
                number: 0,
                count: wake.count,
                first: wake.first,
            },
            Err(refusal) => Later {
                number: u32::from(refusal),
                count: 0,
                first: 0,
            },
        }
    }
}

// document 02, W-212: The answer of the question for a link that lifts a radio: refusal number, and the pair, lower radio first.
#[repr(C)]
#[derive(Clone, Copy)]
pub struct Pair {
    pub number: u32,
    pub low: u32,
    pub high: u32,
}

impl From<Result<Ends, Refusal>> for Pair {
    ghost from_gives = { λ answer reply. reply ≡ pair_reply answer };

    fn from(answer: Result<Ends, Refusal>) -> Pair {
        match answer {
            Ok(ends) => Pair {
                number: 0,
                low: ends.low,
                high: ends.high,
            },
            Err(refusal) => Pair {
                number: u32::from(refusal),
                low: 0,
                high: 0,
            },
        }
    }
}

// The answer of the block reader: refusal number, 1 at the end, where the payload lies, and the number of the next block.
#[repr(C)]
#[derive(Clone, Copy)]
pub struct Block {
    pub number: u32,
    pub end: u32,
    pub offset: usize,
    pub length: usize,
    pub next: usize,
}
