// What the refusal numbers mean, 1 to 20, in words, put into a lent buffer. A text that does not fit is cut, and counted whole.
ghost use Rattle.text.specs.Print.{buffer_at, Puts};
ghost use Rattle.site_program.specs.Words.{further_words, image_words, table_words, words_of, refused_text};

// The numbers of the refusals. A text is asked for by number, and not by the enum: of one that is no refusal's there is a text too.
const SIZE: u32 = 1;

const LENGTH: u32 = 2;

const UNSOUND: u32 = 3;

const RADIO: u32 = 4;

const SAME_ENDS: u32 = 5;

const LINK_STATE: u32 = 6;

const NO_ROOM: u32 = 7;

const LEVEL: u32 = 8;

const IMAGE_SIZE: u32 = 9;

const IMAGE_CHECK: u32 = 10;

const IMAGE: u32 = 11;

const PAGE: u32 = 12;

const TEXT: u32 = 13;

const HEARD: u32 = 14;

const OTHER_SIZE: u32 = 15;

const PROPOSAL: u32 = 16;

const MARK: u32 = 17;

const NO_MARK: u32 = 18;

const MARKS_FULL: u32 = 19;

const NO_LIFT: u32 = 20;

// What 16 to 20 mean: proposals, marks and lifts.
fn put_further_words(out: &mut [u8], at: usize, number: u32) -> usize
    ensures { Puts (buffer_at out.old at) (further_words number) (buffer_at out.new result) }
{
    if number == PROPOSAL {
        return text::put_text(out, at, b"the proposal is not what asking would give now");
    }
    if number == MARK {
        return text::put_text(
            out,
            at,
            b"a place of the store or the name breaks the rules",
        );
    }
    if number == NO_MARK {
        return text::put_text(out, at, b"there is no mark of this name");
    }
    if number == MARKS_FULL {
        return text::put_text(out, at, b"a new name finds 8 marks");
    }
    if number == NO_LIFT {
        return text::put_text(out, at, b"no link would raise the radio's number");
    }
    text::put_text(out, at, b"the call is refused")
}

// What 9 to 11 and 15 mean: images.
fn put_image_words(out: &mut [u8], at: usize, number: u32) -> usize
    ensures { Puts (buffer_at out.old at) (image_words number) (buffer_at out.new result) }
{
    if number == IMAGE_SIZE {
        return text::put_text(out, at, b"the length is 0 or no multiple of 512");
    }
    if number == IMAGE_CHECK {
        return text::put_text(out, at, b"a block does not pass its check");
    }
    if number == IMAGE {
        return text::put_text(out, at, b"the bytes are the image of no sound site");
    }
    if number == OTHER_SIZE {
        return text::put_text(
            out,
            at,
            b"the bytes are the image of a site of another size",
        );
    }
    put_further_words(out, at, number)
}

// What 1 to 3 and 12 to 14 mean: tables.
fn put_table_words(out: &mut [u8], at: usize, number: u32) -> usize
    ensures { Puts (buffer_at out.old at) (table_words number) (buffer_at out.new result) }
{
    if number == SIZE {
        return text::put_text(out, at, b"the count of radios is not from 1 to 512");
    }
    if number == LENGTH {
        return text::put_text(out, at, b"a table has another length");
    }
    if number == UNSOUND {
        return text::put_text(out, at, b"the tables are not sound");
    }
    if number == PAGE {
        return text::put_text(out, at, b"the page is shorter than the sheet");
    }
    if number == TEXT {
        return text::put_text(out, at, b"the buffer is shorter than the script");
    }
    if number == HEARD {
        return text::put_text(
            out,
            at,
            b"a heard row marks its own radio or one that is none",
        );
    }
    put_image_words(out, at, number)
}

// What a number means; here 4 to 8: radios, links and levels.
fn put_words(out: &mut [u8], at: usize, number: u32) -> usize
    ensures { Puts (buffer_at out.old at) (words_of number) (buffer_at out.new result) }
{
    if number == RADIO {
        return text::put_text(out, at, b"a radio named is not below the count of radios");
    }
    if number == SAME_ENDS {
        return text::put_text(out, at, b"the ends of the link are the same radio");
    }
    if number == LINK_STATE {
        return text::put_text(out, at, b"the link is up already, or down already");
    }
    if number == NO_ROOM {
        return text::put_text(out, at, b"an end has 40 neighbours");
    }
    if number == LEVEL {
        return text::put_text(out, at, b"the level is above the radio's number");
    }
    put_table_words(out, at, number)
}

// "refused by", the number, a colon, and the words.
pub fn put_refused(out: &mut [u8], at: usize, number: u32) -> usize
    ensures { Puts (buffer_at out.old at) (refused_text number) (buffer_at out.new result) }
{
    let word = text::put_text(out, at, b"refused by");
    let digits = text::put_field(out, word, number as u64);
    let colon = text::put_text(out, digits, b": ");
    put_words(out, colon, number)
}
