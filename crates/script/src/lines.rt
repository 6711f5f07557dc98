// Lines of the replay program: `radios N`, `up A B`, `down A B`.
ghost use Rattle.std.specs.Prelude.{◌≡◌, ◌≤◌, ◌<◌};
ghost use Rattle.lists.specs.Kit.{false, length, drop};
ghost use Rattle.script.specs.Texts.{read_of, value_of, alone_of};
ghost use Rattle.script.specs.Digits.{digit_of};
ghost use Rattle.script.specs.Lines.{digits_on, number_of, last_number_of, link_from, starts, line_of};

// The largest number that a line may have.
const MAX_VALUE: u32 = 65535;

// The words of lines, with the space after them.
pub const RADIOS: [u8; 7] = *b"radios ";

pub const UP: [u8; 3] = *b"up ";

pub const DOWN: [u8; 5] = *b"down ";

// What a line says.
#[derive(Clone, Copy)]
pub enum Line {
    Radios(u32),
    Up(u32, u32),
    Down(u32, u32),
    Bad,
}

// A number found in a text, and the place after it.
#[derive(Clone, Copy)]
pub struct Number {
    pub value: u32,
    pub next: usize,
}

// Whether s starts with the word.
fn starts_with(s: &[u8], word: &[u8]) -> bool
    ensures { result ≡ starts word.now s.now }
{
    for i in 0..word.len() {
        if s.len() <= i {
            return false;
        }
        if word[i] != s[i] {
            return false;
        }
    }
    true
}

// The digit that a byte is.
pub fn digit_of(byte: u8) -> Option<u32>
    ensures { result ≡ digit_of byte }
{
    match byte {
        b'0'..=b'9' => Some((byte - b'0') as u32),
        _ => None,
    }
}

// The digits from p on, read onto v; none where they come to more than the largest number.
fn read_digits(s: &[u8], p: usize, v: u32) -> Option<Number>
    requires { (p ≤ length s.now) × (v ≤ 65535) }
    ensures { read_of s.now result ≡ digits_on v (drop p s.now) }
{
    let mut value = v;
    for next in p..s.len() {
        let Some(digit) = digit_of(s[next]) else {
            return Some(Number { value, next });
        };
        let longer = 10 * value + digit;
        if MAX_VALUE < longer {
            return None;
        }
        value = longer;
    }
    let next = s.len();
    Some(Number { value, next })
}

// The number at p, with the place after it. A zero stands alone: after it no digit is read.
fn read_number(s: &[u8], p: usize) -> Option<Number>
    ensures { read_of s.now result ≡ number_of (drop p s.now) }
{
    if s.len() <= p {
        return None;
    }
    if s[p] == b'0' {
        return Some(Number {
            value: 0,
            next: p + 1,
        });
    }
    let Some(digit) = digit_of(s[p]) else {
        return None;
    };
    read_digits(s, p + 1, digit)
}

// The number at p, if nothing but the line feed stands after it.
fn read_last_number(s: &[u8], p: usize) -> Option<u32>
    ensures { result ≡ value_of (last_number_of (drop p s.now)) }
{
    let Some(r) = read_number(s, p) else {
        return None;
    };
    if s.len() <= r.next {
        return None;
    }
    if s[r.next] != b'\n' {
        return None;
    }
    if s.len() - 1 != r.next {
        return None;
    }
    Some(r.value)
}

// The number that is the whole of s, in the form that a line's numbers have.
pub fn read_alone(s: &[u8]) -> Option<u32>
    ensures { result ≡ value_of (alone_of s.now) }
{
    let Some(r) = read_number(s, 0) else {
        return None;
    };
    if r.next < s.len() {
        return None;
    }
    Some(r.value)
}

// What the two numbers from p on say, to the end of the line.
fn read_link(s: &[u8], p: usize, up: bool) -> Line
    ensures { result ≡ link_from up (drop p s.now) }
{
    let Some(a) = read_number(s, p) else {
        return Line::Bad;
    };
    if s.len() <= a.next {
        return Line::Bad;
    }
    if s[a.next] != b' ' {
        return Line::Bad;
    }
    let Some(b) = read_last_number(s, a.next + 1) else {
        return Line::Bad;
    };
    if up {
        Line::Up(a.value, b)
    } else {
        Line::Down(a.value, b)
    }
}

// What the whole of s says, its line feed included; `Bad` for every text that is no line of the language. s may have any length.
pub fn parse(s: &[u8]) -> Line
    ensures { result ≡ line_of s.now }
{
    if starts_with(s, &UP) {
        return read_link(s, UP.len(), true);
    }
    if starts_with(s, &DOWN) {
        return read_link(s, DOWN.len(), false);
    }
    if starts_with(s, &RADIOS) {
        if let Some(n) = read_last_number(s, RADIOS.len()) {
            return Line::Radios(n);
        }
    }
    Line::Bad
}
