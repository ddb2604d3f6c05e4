// Runs the services with buffers of several lengths, and says whether the words or bytes that must keep their contents do.
#![tactic(auto)]

ghost use Rattle.std.specs.Prelude.{◌≡◌, ℕ, ◌+◌, ◌≤◌, ◌<◌, length, get_or};
ghost use Rattle.grammar.specs.Nodes.{words_per_node};
ghost use Rattle.short_buffers.specs.Room.{room};

use listing::whole::Whole;
use nodes::node;
use reader::Answer;
use std::io;
use std::io::Write;

// The words of the table and the bytes of the buffer, of which parts are lent.
const ROOM: usize = 40;

// Fills a buffer with 200 plus the index. No service writes such bytes or words here.
fn fill(buffer: &mut [u8])
    requires { length buffer.old ≤ 56 }
    ensures buffer_len_unchanged { length buffer.new ≡ length buffer.old }
    ensures by_index { (k : ℕ) → k < length buffer.new → get_or buffer.new k 0 ≡ 200 + k }
{
    for (i, byte) in buffer.iter_mut().enumerate() {
        *byte = 200 + i as u8;
    }
}

// Copies bytes into words.
fn widen(bytes: &[u8], words: &mut [u32])
    requires { length bytes.now ≤ length words.old }
    ensures words_len_unchanged { length words.new ≡ length words.old }
    ensures by_index { (k : ℕ) → k < length bytes.now
        → get_or words.new k 0 ≡ get_or bytes.now k 0 }
{
    for (i, byte) in bytes.iter().enumerate() {
        words[i] = *byte as u32;
    }
}

// The first index from `from` on of a word that is not as `fill` leaves it, or how many words there are.
fn first_changed(words: &[u32], from: usize) -> usize
    requires { length words.now ≤ 56 }
    ensures by_index { (k : ℕ) → k < result → from ≤ k → get_or words.now k 0 ≡ 200 + k }
    ensures changed { result < length words.now → get_or words.now result 0 ≡ 200 + result → ⊥ }
    ensures from_on { result < length words.now → from ≤ result }
{
    for (i, word) in words.iter().enumerate() {
        if from <= i && *word != 200 + i as u32 {
            return i;
        }
    }
    words.len()
}

#[derive(Clone, Copy)]
enum Service {
    Read,
    Canonicalize,
    WriteName,
}

impl Service {
    // The word of an answer that is no refusal.
    fn word(self) -> &'static str {
        match self {
            Service::Read => "read",
            Service::Canonicalize => "tidy",
            Service::WriteName => "name",
        }
    }

    // What the length of a lent buffer counts.
    fn unit(self) -> &'static str {
        match self {
            Service::Read => "words",
            Service::Canonicalize | Service::WriteName => "bytes",
        }
    }
}

// Prints what a run gave: `len` is the buffer's length, and words from `kept` on must have kept their contents.
fn report<W: Write>(
    out: &mut W,
    service: Service,
    text: &[u8],
    len: usize,
    a: Answer,
    words: &[u32],
    kept: usize,
) -> io::Result<()>
    requires { length words.now ≤ 56 }
{
    out.write_all(text)?;
    let unit = service.unit();
    write!(Whole(out), ", {len} {unit}: ")?;
    listing::print_answer(out, service.word().as_bytes(), a)?;
    let changed = first_changed(words, kept);
    if changed == words.len() {
        return writeln!(Whole(out), ", rest unchanged");
    }
    writeln!(Whole(out), ", changed at {changed}")
}

// Writes into a buffer the characters of the name at the first node of a text.
fn write_name(text: &[u8], buffer: &mut [u8]) -> Answer {
    let mut table = [0u32; ROOM];
    reader::read(text, &mut table);
    reader::write_name(text, &table, 0, buffer)
}

// Runs a service with a buffer of `len` words or bytes, the first of a table or of a buffer of bytes, whose contents are then widened to words.
// A refusal has count 0, so then all words must keep their contents.
fn run_into<W: Write>(out: &mut W, service: Service, text: &[u8], len: usize) -> io::Result<()>
    requires { len ≤ room }
{
    let mut bytes = [0u8; ROOM];
    fill(&mut bytes);
    let mut words = [0u32; ROOM];
    match service {
        Service::Read => {
            widen(&bytes, &mut words);
            let a = reader::read(text, &mut words[..len]);
            report(out, service, text, len, a, &words, a.count * node::WORDS)
        }
        Service::Canonicalize => {
            let a = reader::canonicalize(text, &mut bytes[..len]);
            widen(&bytes, &mut words);
            report(out, service, text, len, a, &words, a.count)
        }
        Service::WriteName => {
            let a = write_name(text, &mut bytes[..len]);
            widen(&bytes, &mut words);
            report(out, service, text, len, a, &words, a.count)
        }
    }
}

// Runs a service with buffers of lengths around `needed`, the length of the result; one word less than a node has makes no whole node more.
fn run<W: Write>(out: &mut W, service: Service, text: &[u8], needed: usize) -> io::Result<()>
    requires le_needed { 1 ≤ needed }
    requires words_per_node_bound { needed + words_per_node ≤ room }
{
    run_into(out, service, text, 0)?;
    run_into(out, service, text, needed - 1)?;
    run_into(out, service, text, needed)?;
    run_into(out, service, text, needed + 1)?;
    run_into(out, service, text, needed + node::WORDS - 1)?;
    run_into(out, service, text, ROOM)
}

fn main(rt: HostRuntime) -> io::Result<()> {
    let mut out = rt.stdout();
    run(&mut out, Service::Read, b"a + b * 3", 5 * node::WORDS)?;
    run(&mut out, Service::Read, b"a", node::WORDS)?;
    run(&mut out, Service::Read, b"a - - b", 4 * node::WORDS)?;
    run(&mut out, Service::Canonicalize, b"a+b", 5)?;
    run(&mut out, Service::Canonicalize, b"((a)) * (b + c)", 13)?;
    run(&mut out, Service::Canonicalize, b"a - - b", 7)?;
    run(&mut out, Service::WriteName, b"'O''Neill'", 7)?;
    run(&mut out, Service::WriteName, b"''''", 1)?;
    run_into(&mut out, Service::Read, b" ", 0)?;
    run_into(&mut out, Service::Read, b" ", ROOM)?;
    run_into(&mut out, Service::Canonicalize, b" ", 0)?;
    run_into(&mut out, Service::Canonicalize, b" ", ROOM)
}
