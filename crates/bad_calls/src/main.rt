// The same as `services`, run on lines that are no calls among others.
// A program has one recorded input, so each recorded run is a program, and their `main`s are alike.
#![tactic(auto)]

use service_lines::Format;
use std::io;

fn main(rt: HostRuntime) -> io::Result<()> {
    service_lines::answer_lines(&mut rt.stdin(), &mut rt.stdout(), Format::Calls)
}
