// Prints what the services answer, in document 01's format: the answer; of a listing a line for each node, then the canonical text.
#![tactic(auto)]

ghost use Rattle.std.specs.Prelude.{◌≡◌, ◌++◌, ◌≤◌, replicate, OnOk};
ghost use Rattle.std.specs.Io.KnownBytes.{Appends};
ghost use Rattle.grammar.specs.Listing.{newline, node_lines, canonical_lines, printed};
ghost use Rattle.grammar.specs.Answer as G;
ghost use Rattle.grammar.specs.Fault.{longest_text};
ghost use Rattle.listing.specs.Lines.{answer_text, outcome_text, most_nodes};
ghost use Rattle.listing.specs.Outcome.{outcome_of};

mod error;
mod line;
mod node;
pub mod whole;

use crate::error::NumberedError;
use crate::line::Line;
use crate::node::Node;
use crate::whole::{Whole, write_behind};
use nodes::node::WORDS;
use reader::Answer;
use std::io;
use std::io::Write;

// The nodes of a table, enough for every text, and its words.
const NODES: usize = 1024;

const TABLE: usize = NODES * WORDS;

// The most bytes that canonical text has.
const LONGEST: usize = 16384;

// What an answer says: the count, or the error.
fn outcome(a: Answer) -> Result<usize, NumberedError>
    ensures { result ≡ outcome_of a }
{
    if a.number == 0 {
        return Ok(a.count);
    }
    Err(NumberedError {
        number: a.number,
        offset: a.offset,
    })
}

// Writes an answer, with no line end: `word` and the count, or the error.
pub fn print_answer<W: Write>(out: &mut W, word: &[u8], a: Answer) -> io::Result<()>
    ensures { OnOk result (Appends (W.contents out.old) (W.contents out.new) (answer_text word.now a)) }
{
    match outcome(a) {
        Ok(count) => write_behind(out, word, format_args!(" {count}")),
        Err(error) => write!(Whole(out), "{error}"),
    }
}

// Writes bytes and a line end.
fn print_line<W: Write>(out: &mut W, line: &[u8]) -> io::Result<()>
    ensures { OnOk result (Appends (W.contents out.old) (W.contents out.new) (line.now ++ newline)) }
{
    write_behind(out, line, "\n")
}

// Writes the answer of a service that counts nothing, and a line end: `word`, or the error.
pub fn print_outcome<W: Write>(out: &mut W, word: &[u8], a: Answer) -> io::Result<()>
    ensures { OnOk result (Appends (W.contents out.old) (W.contents out.new) (outcome_text word.now a ++ newline)) }
{
    match outcome(a) {
        Ok(_) => print_line(out, word),
        Err(error) => writeln!(Whole(out), "{error}"),
    }
}

// Writes the lines of the first `count` nodes.
fn print_nodes<W: Write>(out: &mut W, nodes: &[u32; TABLE], count: usize) -> io::Result<()>
    requires { count ≤ most_nodes }
    ensures { OnOk result (Appends (W.contents out.old) (W.contents out.new) (node_lines count 0 nodes.now)) }
{
    for (i, words) in nodes.chunks_exact(WORDS).take(count).enumerate() {
        let node = Node::from_words(words);
        let mut line = Line::empty();
        line.add_node(i, node);
        out.write_all(line.as_slice())?;
    }
    Ok(())
}

// Canonicalizes a text and prints the length and the bytes of the canonical text, or the error.
fn print_canonical<W: Write>(out: &mut W, text: &[u8]) -> io::Result<()>
    ensures { OnOk result (Appends (W.contents out.old) (W.contents out.new) (canonical_lines (G.canonicalize text.now (replicate longest_text 0)))) }
{
    let mut buffer = [0u8; LONGEST];
    let a = reader::canonicalize(text, &mut buffer);
    match outcome(a) {
        Ok(count) => {
            writeln!(Whole(out), "tidy {count}")?;
            out.write_all(&buffer[..count])?;
            out.write_all(b"\n")
        }
        Err(error) => writeln!(Whole(out), "{error}"),
    }
}

// Reads a text into a table and prints its listing: the answer, the nodes and the canonical text.
pub fn print_listing<W: Write>(out: &mut W, text: &[u8]) -> io::Result<()>
    ensures { OnOk result (Appends (W.contents out.old) (W.contents out.new) (printed text.now)) }
{
    let mut nodes = [0u32; TABLE];
    let a = reader::read(text, &mut nodes);
    match outcome(a) {
        Ok(count) => {
            writeln!(Whole(out), "read {count}")?;
            print_nodes(out, &nodes, count)?;
            print_canonical(out, text)
        }
        Err(error) => writeln!(Whole(out), "{error}"),
    }
}
