// Names: 8 bytes, A to Z and 0 to 9, at least one, then spaces.
ghost use Rattle.std.specs.Prelude.{◌≡◌};
ghost use Rattle.mesh.specs.Marks.{is_alphanumeric, alphanumerics_then_spaces, is_name, before};

use super::zeros;

// Whether c is A to Z or 0 to 9.
fn is_alphanumeric(c: u8) -> bool
    ensures { result ≡ is_alphanumeric c }
{
    if c < 48 {
        return false;
    }
    if c <= 57 {
        return true;
    }
    if c < 65 {
        return false;
    }
    c <= 90
}

// Whether the bytes are A to Z and 0 to 9, if any, and then spaces, if any.
fn is_padded(name: &[u8]) -> bool
    ensures { result ≡ alphanumerics_then_spaces name.now }
{
    for i in 0..name.len() {
        if !is_alphanumeric(name[i]) {
            return zeros::are_all(&name[i..], 32);
        }
    }
    true
}

// Whether the bytes are a name.
pub fn is_name(name: &[u8]) -> bool
    ensures { result ≡ is_name name.now }
{
    if name.len() != 8 {
        return false;
    }
    if !is_alphanumeric(name[0]) {
        return false;
    }
    is_padded(name)
}

// Whether a stands before b, by bytes.
pub fn is_before(a: &[u8], b: &[u8]) -> bool
    ensures { result ≡ before a.now b.now }
{
    for i in 0..a.len() {
        if b.len() <= i {
            return false;
        }
        let x = a[i];
        let y = b[i];
        if x < y {
            return true;
        }
        if x != y {
            return false;
        }
    }
    a.len() < b.len()
}
