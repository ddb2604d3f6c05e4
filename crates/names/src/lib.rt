// The characters of a name, from its bytes as written between the outer quotes: a pair of quotes is one character.
#![tactic(auto)]

ghost use Rattle.std.specs.Prelude.{◌≡◌, ◌≤◌, length};
ghost use Rattle.grammar.specs.Token.{undoubled};
ghost use Rattle.grammar.specs.Answer.{over};
ghost use Rattle.names.specs.Widths.{width_of};

// How many bytes the character that begins with a byte has as written.
fn width(first: u8) -> usize
    ensures { result ≡ width_of first }
{
    if first == b'\'' { 2 } else { 1 }
}

// How many characters there are.
pub fn count(written: &[u8]) -> usize
    ensures { result ≡ length (undoubled written.now) }
{
    // The place moves on by one byte or two, so this is no `for`.
    let mut count: usize = 0;
    let mut i: usize = 0;
    while i < written.len() {
        i += width(written[i]);
        count += 1;
    }
    count
}

// Writes them over the front of a buffer that holds them.
pub fn write(written: &[u8], buffer: &mut [u8])
    requires { length (undoubled written.now) ≤ length buffer.old }
    ensures { buffer.new ≡ over (undoubled written.now) buffer.old }
{
    // As in `count`, the place moves on by one byte or two.
    let mut n: usize = 0;
    let mut i: usize = 0;
    while i < written.len() {
        buffer[n] = written[i];
        n += 1;
        i += width(written[i]);
    }
}
