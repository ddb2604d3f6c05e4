// Reads standard input as one text and prints its listing.
#![tactic(auto)]

ghost use Rattle.std.specs.Prelude.{◌≤◌, IfOk, length};

use std::io;
use std::io::Read;

// The most bytes of a text that is read; a longer one is refused as too long.
const LONGEST: usize = 16384;

// Reads until the buffer is full or the input ends, and answers how many bytes it put at the start of the buffer. std reads an input to its end
// into a Vec alone, and there is no heap here; a read gives any number of bytes, so the index does not count by one.
fn read_full<R: Read>(input: &mut R, buffer: &mut [u8]) -> io::Result<usize>
    ensures { IfOk result (λ n. n ≤ length buffer.new) }
{
    let mut n: usize = 0;
    while n < buffer.len() {
        let more = input.read(&mut buffer[n..])?;
        if more == 0 {
            return Ok(n);
        }
        n += more;
    }
    Ok(n)
}

fn main(rt: HostRuntime) -> io::Result<()> {
    // Every text longer than 16,384 bytes is answered alike, refusal 1 at 16384, so its first 16,385 bytes stand for it.
    let mut text = [0u8; LONGEST + 1];
    let n = read_full(&mut rt.stdin(), &mut text)?;
    listing::print_listing(&mut rt.stdout(), &text[..n])
}
