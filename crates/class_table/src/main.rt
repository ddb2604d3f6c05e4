// Prints the table of the classes of bytes, each by the rule, as the constant stands in the source of the scanner, an entry to a line.
#![tactic(auto)]

use std::io;
use std::io::Write;

// Writes the entry of a byte, and the byte itself behind it.
fn print_entry<W: Write>(out: &mut W, b: u8) -> io::Result<()> {
    writeln!(out, "    {}, // {b}", byte_classes::class(b))
}

fn main(rt: HostRuntime) -> io::Result<()> {
    let mut out = rt.stdout();
    writeln!(out, "const CLASSES: [u8; 256] = [")?;
    for b in 0..=255u8 {
        print_entry(&mut out, b)?;
    }
    writeln!(out, "];")
}
