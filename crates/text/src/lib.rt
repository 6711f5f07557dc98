// Text put into a lent buffer: bytes, words, decimal numbers, the rest of a line. Each function puts its text from the place `at`
// on and answers the place after it. A byte past the buffer's end is left out and still counted, so an answer above the length
// tells that the text did not fit, and how long the buffer must be. All other bytes keep their content.
#![tactic(auto)]

ghost use Rattle.std.specs.Prelude.{◌≡◌, ◌∷◌, ◌<◌, ◌≤◌};
ghost use Rattle.lists.specs.Kit.{[], ℕ, map, length, drop};
ghost use Rattle.text.specs.Text.{space, digit_byte, decimal, further_fields};
ghost use Rattle.text.specs.Print.{buffer_at, Puts};

// Puts one byte.
pub fn put_byte(buffer: &mut [u8], at: usize, byte: u8) -> usize
    ensures { Puts (buffer_at buffer.old at) (byte ∷ []) (buffer_at buffer.new result) }
{
    if at < buffer.len() {
        buffer[at] = byte;
        return at + 1;
    }
    if at < usize::MAX {
        return at + 1;
    }
    at
}

// Puts the bytes of a text.
pub fn put_text(buffer: &mut [u8], at: usize, text: &[u8]) -> usize
    ensures { Puts (buffer_at buffer.old at) text.now (buffer_at buffer.new result) }
{
    let mut place = at;
    for x in text {
        place = put_byte(buffer, place, *x);
    }
    place
}

// The byte of a digit.
fn digit_byte(digit: u64) -> u8
    requires { digit < 10 }
    ensures { result ≡ digit_byte digit }
{
    b'0' + digit as u8
}

// Fills in the digits of x so that the last stands last, and answers where the first stands.
fn fill_digits(digits: &mut [u8], x: u64) -> usize
    requires { length digits.old ≡ 20 }
    ensures { (result ≤ 20) × (drop result digits.new ≡ decimal x) }
{
    let mut rest = x;
    let mut i = 19;
    while rest >= 10 {
        digits[i] = digit_byte(rest % 10);
        rest /= 10;
        i -= 1;
    }
    digits[i] = digit_byte(rest);
    i
}

// Puts x in decimal. A u64 has at most 20 digits.
pub fn put_decimal(buffer: &mut [u8], at: usize, x: u64) -> usize
    ensures { Puts (buffer_at buffer.old at) (decimal x) (buffer_at buffer.new result) }
{
    let mut digits = [0u8; 20];
    let from = fill_digits(&mut digits, x);
    put_text(buffer, at, &digits[from..])
}

// Puts a further field of a line: a space and a number.
pub fn put_field(buffer: &mut [u8], at: usize, x: u64) -> usize
    ensures { Puts (buffer_at buffer.old at) (space ∷ decimal x) (buffer_at buffer.new result) }
{
    let place = put_byte(buffer, at, b' ');
    put_decimal(buffer, place, x)
}

// A number that is printed as a field of a line, whatever its width.
pub trait Field {
    ghost number: { Self → ℕ };

    // The number, as wide as it is printed.
    fn wide(&self) -> u64
        ensures { result ≡ number self.now };
}

impl Field for u8 {
    ghost number = { λ x. x };

    fn wide(&self) -> u64 {
        *self as u64
    }
}

impl Field for u16 {
    ghost number = { λ x. x };

    fn wide(&self) -> u64 {
        *self as u64
    }
}

// Puts the rest of a line: a further field for each number of the list, and the line feed.
pub fn put_fields<T: Field>(buffer: &mut [u8], at: usize, list: &[T]) -> usize
    ensures { Puts (buffer_at buffer.old at) (further_fields (map (λ (x : T). decimal (T.number x)) list.now))
        (buffer_at buffer.new result) }
{
    let mut place = at;
    for x in list {
        place = put_field(buffer, place, x.wide());
    }
    put_byte(buffer, place, b'\n')
}
