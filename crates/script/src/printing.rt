// The replay program's lines, printed into a lent buffer by crate text: the step, a link call's line, the closing lines, `bad L`.
ghost use Rattle.std.specs.Prelude.{◌≡◌, ◌<◌};
ghost use Rattle.lists.specs.Kit.{nat_abs, take};
ghost use Rattle.calls.specs.Replay.{step_text, link_line, numbers_line, order_line, bad_line};
ghost use Rattle.text.specs.Print.{buffer_at, Puts};

// How far a step goes, either way.
fn step_size(step: i8) -> u64
    ensures { result ≡ nat_abs step }
{
    if step < 0 {
        return (0 - step as i16) as u64;
    }
    step as u64
}

// Puts a step: its sign and its size, or 0.
pub fn put_step(buffer: &mut [u8], at: usize, step: i8) -> usize
    ensures { Puts (buffer_at buffer.old at) (step_text step) (buffer_at buffer.new result) }
{
    let size = step_size(step);
    if step < 0 {
        let place = text::put_byte(buffer, at, b'-');
        return text::put_decimal(buffer, place, size);
    }
    if size == 0 {
        return text::put_decimal(buffer, at, size);
    }
    let place = text::put_byte(buffer, at, b'+');
    text::put_decimal(buffer, place, size)
}

// Puts the line of a link call: refusal number, step, and the first count radios of changed (all of them, where it has fewer).
pub fn put_link_line(
    buffer: &mut [u8],
    at: usize,
    number: u32,
    step: i8,
    changed: &[u16],
    count: u32,
) -> usize
    ensures { Puts (buffer_at buffer.old at) (link_line number step (take count changed.now))
        (buffer_at buffer.new result) }
{
    let after_number = text::put_decimal(buffer, at, number as u64);
    let after_space = text::put_byte(buffer, after_number, b' ');
    let after_step = put_step(buffer, after_space, step);
    let n = count as usize;
    if changed.len() <= n {
        return text::put_fields(buffer, after_step, changed);
    }
    text::put_fields(buffer, after_step, &changed[..n])
}

// Puts the closing line of the numbers, by radio.
pub fn put_numbers_line(buffer: &mut [u8], at: usize, numbers: &[u8]) -> usize
    ensures { Puts (buffer_at buffer.old at) (numbers_line numbers.now) (buffer_at buffer.new result) }
{
    let place = text::put_text(buffer, at, b"numbers");
    text::put_fields(buffer, place, numbers)
}

// Puts the closing line of the order.
pub fn put_order_line(buffer: &mut [u8], at: usize, order: &[u16]) -> usize
    ensures { Puts (buffer_at buffer.old at) (order_line order.now) (buffer_at buffer.new result) }
{
    let place = text::put_text(buffer, at, b"order");
    text::put_fields(buffer, place, order)
}

// Puts what ends the run at a line of another form: lines are counted from 1.
pub fn put_bad_line(buffer: &mut [u8], at: usize, line: u64) -> usize
    ensures { Puts (buffer_at buffer.old at) (bad_line line) (buffer_at buffer.new result) }
{
    let after_word = text::put_text(buffer, at, b"bad");
    let after_line = text::put_field(buffer, after_word, line);
    text::put_byte(buffer, after_line, b'\n')
}
