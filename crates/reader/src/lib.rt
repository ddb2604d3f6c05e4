// The services: any bytes in; a node table, or canonical text, or a numbered refusal out; or where a text without a tree is lost. And for a node
// of the table its part of the text, or the characters of its name.
#![tactic(auto)]

ghost use Rattle.std.specs.Prelude.{◌≡◌};
ghost use Rattle.reader.specs.Answered.{answer_from, written, Reads, Canonicalizes, Locates, node_written, WritesName};

use nodes::node;
use refusals::{Refusal, Refused};
use serving::Service;

// Document 01's answer: number 0 with the count of what was written, or the number and the place of a refusal.
#[repr(C)]
#[derive(Clone, Copy)]
pub struct Answer {
    pub number: u8,
    pub offset: usize,
    pub count: usize,
}

impl From<Result<usize, Refused>> for Answer {
    ghost from_gives = { λ r a. a ≡ answer_from r };

    #[tactic(auto, unfolding(crate::specs::Answered::answer_from))]
    fn from(outcome: Result<usize, Refused>) -> Answer {
        match outcome {
            Ok(count) => Answer {
                number: 0,
                offset: 0,
                count,
            },
            Err(refused) => Answer {
                number: refused.refusal.number(),
                offset: refused.at,
                count: 0,
            },
        }
    }
}

// Reads a text into a lent node table, six words to a node. A refusal changes no word.
pub fn read(text: &[u8], nodes: &mut [u32]) -> Answer
    ensures { Reads text.now nodes.old nodes.new result }
{
    let mut buffer = [0u8; 0];
    serving::serve(text, Service::Read, nodes, &mut buffer).into()
}

// Writes the canonical text of a text over the front of a lent buffer. A refusal changes no byte.
pub fn canonicalize(text: &[u8], buffer: &mut [u8]) -> Answer
    ensures { Canonicalizes text.now buffer.old buffer.new result }
{
    let mut nodes = [0u32; 0];
    serving::serve(text, Service::Canonicalize, &mut nodes, buffer).into()
}

// Where a text is refused: 0 for a text that is read, else the number and place of the refusal; of 11 the place at which the first span without
// a tree is lost. Nothing is written.
pub fn locate(text: &[u8]) -> Answer
    ensures { Locates text.now result }
{
    let mut nodes = [0u32; 0];
    let mut buffer = [0u8; 0];
    serving::serve(text, Service::Locate, &mut nodes, &mut buffer).into()
}

// The part of the text that node number `i` gives: a name as written, without the outer quotes; a number's digits; an operator. Nothing if
// the table does not have the whole node: an empty part, as `node_written` has it, and no `Option`.
pub fn as_written<'a>(text: &'a [u8], nodes: &[u32], i: usize) -> &'a [u8]
    ensures { result.now ≡ node_written text.now nodes.now i }
{
    if nodes.len() <= i {
        return &text[..0];
    }
    let w = i * node::WORDS;
    if nodes.len() < w + node::WORDS {
        return &text[..0];
    }
    let at = nodes[w + 3] as usize;
    let n = nodes[w + 4] as usize;
    byte_strings::cut(text, at, n)
}

// Writes the characters of the name at node number `i` over the front of a lent buffer: the same bytes, with one quote for each pair. A
// refusal, 13 for a buffer that is too short, changes no byte.
pub fn write_name(text: &[u8], nodes: &[u32], i: usize, buffer: &mut [u8]) -> Answer
    ensures { WritesName text.now nodes.now i buffer.old buffer.new result }
{
    let written = as_written(text, nodes, i);
    let count = names::count(written);
    if buffer.len() < count {
        let too_short = Refused {
            refusal: Refusal::BufferTooShort,
            at: 0,
        };
        return Err(too_short).into();
    }
    names::write(written, buffer);
    Ok(count).into()
}
