// Byte strings: equality, cutting, copying, and leading zeros.
#![tactic(auto)]

ghost use Rattle.std.specs.Prelude.{◌≡◌, ◌==◌, ◌+◌, ◌≤◌, ◌<◌, length, take, drop};
ghost use Rattle.std.specs.List.{prefix_len};
ghost use Rattle.grammar.specs.Bytes.{same};
ghost use Rattle.grammar.specs.Canonical.{strip};
ghost use Rattle.byte_strings.specs.Puts.{Put};

// Whether two byte strings are the same.
pub fn equal(a: &[u8], b: &[u8]) -> bool
    ensures { result ≡ same a.now b.now }
{
    // `a == b` would say the same, but the library's `==` of slices divides lengths by 8, 4 and 2: see c/divisions.
    if a.len() != b.len() {
        return false;
    }
    for i in 0..a.len() {
        if a[i] != b[i] {
            return false;
        }
    }
    true
}

// A part of a text, as far as the text goes.
pub fn cut(text: &[u8], at: usize, n: usize) -> &[u8]
    ensures { result.now ≡ take n (drop at text.now) }
{
    let rest = text.get(at..).unwrap_or_default();
    &rest[..n.min(rest.len())]
}

// How many zeros stand in front.
fn leading_zeros(digits: &[u8]) -> usize
    ensures { result ≡ prefix_len (λ b. b == 48) digits.now }
{
    digits.iter().take_while(|digit| **digit == b'0').count()
}

// How many leading zeros go: all that stand before another digit.
pub fn zeros(digits: &[u8]) -> usize
    requires { 1 ≤ length digits.now }
    ensures { (result < length digits.now) × (drop result digits.now ≡ strip digits.now) }
{
    leading_zeros(&digits[..digits.len() - 1])
}

// Copies bytes to place `n` of a buffer, and answers the place behind them.
pub fn put(buffer: &mut [u8], n: usize, part: &[u8]) -> usize
    requires { n + length part.now ≤ length buffer.old }
    ensures { Put buffer.old n part.now buffer.new result }
{
    // `copy_from_slice` would say the same, but the archive would need `memmove`, and its header names `memcpy` and `memset` alone.
    for i in 0..part.len() {
        buffer[n + i] = part[i];
    }
    n + part.len()
}
