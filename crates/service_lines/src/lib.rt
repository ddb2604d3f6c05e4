// Reads lines and prints what each asks for: the listing of a text, or the answer of a call.
#![tactic(auto)]

ghost use Rattle.std.specs.Prelude.{◌≡◌, true, false, List, ℕ, ◌-◌, ◌^◌, ◌≤◌, ◌<◌, Some, length, take, IfOk, OnOk, OnErr};
ghost use Rattle.std.specs.Io.KnownBytes.{Appends};
ghost use Rattle.calls.specs.Calls.{fresh, taken_all, text_taken_all, Sound};
ghost use Rattle.service_lines.specs.Sound.{Sound-prop};
ghost use Rattle.service_lines.specs.Printed.{given_by, answered};
ghost use Rattle.service_lines.specs.Parts.{line_gives, part_gives, rest_gives, TakesSome, TakesNone};

pub use calls::Format;
use calls::{Call, Request, Service};
use std::io;
use std::io::{Read, Write};

// As many bytes of a text as are kept. Every text longer than 16,384 bytes is answered alike, refusal 1 at 16384, so its first 16,385
// bytes stand for it.
const KEPT: usize = 16385;

// The most bytes that are read at once.
const PART: usize = 65536;

// Prints what a service gives for a text.
#[tactic(auto, using(crate::proofs::Gives::handed_out))]
fn answer<W: Write>(out: &mut W, service: Service, text: &[u8]) -> io::Result<()>
    ensures { OnOk result (Appends (W.contents out.old) (W.contents out.new) (given_by service text.now)) }
{
    match service {
        Service::Listing => listing::print_listing(out, text),
        Service::Locate => listing::print_outcome(out, b"read", reader::locate(text)),
    }
}

// How lines are written, what is known of the one that is being read, and the first bytes of its text.
#[derive(Drop)]
struct LineReader {
    format: Format,
    call: Call,
    text: [u8; KEPT],

    ghost sound: { Sound call text } by { Sound-prop call text },
}

impl LineReader {
    // Prints what the line asks for if it ends here.
    fn finish<W: Write>(&self, out: &mut W) -> io::Result<()>
        ensures { OnOk result (Appends (W.contents out.old) (W.contents out.new) (line_gives self.now.text self.now.call)) }
    {
        match self.call.ended() {
            Some(Request { service, kept }) => answer(out, service, &self.text[..kept]),
            None => out.write_all(b"bad line\n"),
        }
    }

    // Takes the characters of a part of the input. A line end finishes the line and begins the next one. The line is a local here: in memory
    // beside the text it would be loaded and stored again for each byte that is written there.
    #[tactic(auto, unfolding(calls::specs::Calls::taken_all, calls::specs::Calls::text_taken_all, crate::specs::Parts::part_gives))]
    fn take_all<W: Write>(&mut self, out: &mut W, part: &[u8]) -> io::Result<()>
        ensures format { self.new.format ≡ self.old.format }
        ensures value { OnOk result (self.new.call ≡ taken_all self.old.format self.old.text self.old.call part.now) }
        ensures text_after { OnOk result (self.new.text ≡ text_taken_all self.old.format self.old.text self.old.call part.now) }
        ensures failed { OnErr result ((k : ℕ) × (0 < k) × (k ≤ length part.now)
            × (self.new.text ≡ text_taken_all self.old.format self.old.text self.old.call (take k part.now))) }
        ensures prints { OnOk result (Appends (W.contents out.old) (W.contents out.new)
            (part_gives self.old.format self.old.text self.old.call part.now)) }
    {
        let mut call = self.call;
        for &b in part {
            if b == b'\n' {
                self.call = call;
                self.finish(out)?;
                call = Call::new(self.format);
            } else {
                call = call.next(&mut self.text, b);
            }
        }
        self.call = call;
        Ok(())
    }

    // Reads once and takes what came, and says whether the input goes on. Where nothing came, it has ended, and a last line may lack its
    // line end.
    #[tactic(auto, unfolding(crate::specs::Parts::end_gives))]
    fn read_some<R: Read, W: Write>(&mut self, input: &mut R, out: &mut W) -> io::Result<bool>
        ensures format { self.new.format ≡ self.old.format }
        ensures some { IfOk result (λ more. more ≡ true → TakesSome self.old.format self.old.text self.new.text self.old.call self.new.call
            (R.remaining input.old) (R.remaining input.new) (W.contents out.old) (W.contents out.new)) }
        ensures none { IfOk result (λ more. more ≡ false → TakesNone self.old.text self.old.call
            (R.remaining input.old) (R.remaining input.new) (W.contents out.old) (W.contents out.new)) }
    {
        let mut part = [0u8; PART];
        let n = input.read(&mut part)?;
        if n == 0 {
            if self.call.is_begun() {
                self.finish(out)?;
            }
            return Ok(false);
        }
        self.take_all(out, &part[..n])?;
        Ok(true)
    }

    // Reads all of the input. Nothing says that it ends, so there are more turns than any run uses up.
    fn read_all<R: Read, W: Write>(&mut self, input: &mut R, out: &mut W) -> io::Result<()>
        ensures { OnOk result ((bs : List ℕ) → R.remaining input.old ≡ Some bs → length bs < 2 ^ 64 - 1
            → Appends (W.contents out.old) (W.contents out.new) (rest_gives self.old.format self.old.text self.old.call bs)) }
    {
        for _ in 0..u64::MAX {
            if !self.read_some(input, out)? {
                return Ok(());
            }
        }
        Ok(())
    }
}

// Reads lines and prints what each asks for: the listing of a text in hexadecimal, or the answer of a call.
pub fn answer_lines<R: Read, W: Write>(input: &mut R, out: &mut W, format: Format) -> io::Result<()>
    ensures { OnOk result ((bs : List ℕ) → R.remaining input.old ≡ Some bs → length bs < 2 ^ 64 - 1
        → Appends (W.contents out.old) (W.contents out.new) (answered format bs)) }
{
    let mut lines = LineReader {
        format,
        call: Call::new(format),
        text: [0u8; KEPT],
    };
    lines.read_all(input, out)
}
