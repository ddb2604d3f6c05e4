// The front of all services: check 1, rows of the text's length, checks 2 to 11 and 17, and then what is asked for.
#![tactic(auto)]

ghost use Rattle.std.specs.Prelude.{◌≡◌, ◌≤◌, List, ℕ, length, min};
ghost use Rattle.checks.specs.Checking.{Checkable};
ghost use Rattle.rows.specs.Fields.{NoteRow, RootRow};
ghost use Rattle.serving.specs.Serving.{Reads, Canonicalizes, RefusesFor, Serves};
ghost use Rattle.serving.specs.Found.{Found};

use canonical_text::pieces;
use checks::{Checked, Unread};
use nodes::build::Rows;
use nodes::{build, node};
use refusals::{Refusal, Refused};
use rows::operands::Operands;
use rows::roles::Note;
use rows::token::Token;

pub const MAX_BYTES: usize = 16384;

pub const MAX_TOKENS: usize = 1024;

// A text of at most so many bytes has no more tokens, and shorter rows.
pub const TINY: usize = 16;

pub const SHORT: usize = 128;

// What is asked for: the node table, the canonical text, or the place at which a text without a tree is lost. One front serves all, so that
// the archive has it once.
#[derive(Clone, Copy)]
pub enum Service {
    Read,
    Canonicalize,
    Locate,
}

impl Service {
    // The refusal that a service gives of a text that is not read: of 11 the place of the span without a tree, or that at which it is lost.
    #[tactic(auto, unfolding(crate::specs::Serving::treeless_place))]
    fn refused(self, unread: Unread) -> Refused
        ensures { RefusesFor self unread result }
    {
        match unread {
            Unread::Refused { refusal, offset } => Refused {
                refusal,
                at: offset,
            },
            Unread::NoTree { span, lost } => Refused {
                refusal: Refusal::NoTree,
                at: match self {
                    Service::Read => span,
                    Service::Canonicalize => span,
                    Service::Locate => lost,
                },
            },
        }
    }
}

// Writes the nodes of the tokens, if the table has room for them, and answers how many they are.
fn write_nodes(rows: &Rows, checked: Checked, nodes: &mut [u32]) -> Result<usize, Refused>
    requires { (text : List ℕ) × Found text rows.now.tokens.now rows.now.notes.now rows.now.roots.now checked }
    ensures { (text : List ℕ) → Found text rows.now.tokens.now rows.now.notes.now rows.now.roots.now checked
        → Reads text nodes.old nodes.new result }
{
    if nodes.len() < checked.nodes * node::WORDS {
        return Err(Refused {
            refusal: Refusal::TableTooShort,
            at: 0,
        });
    }
    let written = build::build(rows, 0, checked.root, checked.tokens, nodes, 0);
    Ok(written)
}

// Writes the canonical text of the tokens, if it fits, and answers how many bytes it has.
fn write_text(
    text: &[u8],
    tokens: &mut [Token],
    notes: &[Note],
    roots: &[Operands],
    count: usize,
    buffer: &mut [u8],
) -> Result<usize, Refused>
    requires { (checked : Checked) × (checked.tokens ≡ count) × Found text.now tokens.old notes.now roots.now checked }
    ensures { Canonicalizes text.now buffer.old buffer.new result }
{
    let too_short = Refused {
        refusal: Refusal::BufferTooShort,
        at: 0,
    };
    let n = pieces::prepare(text, tokens, notes, roots, count);
    if buffer.len() < n {
        return Err(too_short);
    }
    if MAX_BYTES < n {
        return Err(too_short);
    }
    pieces::write(text, tokens, count, buffer);
    Ok(n)
}

// Checks 2 to 11 and 17, and then what is asked for: nodes into the table, canonical text into the buffer, or neither.
fn serve_in(
    text: &[u8],
    tokens: &mut [Token],
    notes: &mut [Note],
    roots: &mut [Operands],
    service: Service,
    nodes: &mut [u32],
    buffer: &mut [u8],
) -> Result<usize, Refused>
    requires { Checkable text.now tokens.old notes.old roots.old }
    ensures { Serves service text.now nodes.old nodes.new buffer.old buffer.new result }
{
    match checks::check(text, tokens, notes, roots) {
        Err(unread) => Err(service.refused(unread)),
        Ok(None) => Ok(0),
        Ok(Some(checked)) => match service {
            Service::Read => {
                let rows = Rows {
                    tokens,
                    notes,
                    roots,
                };
                write_nodes(&rows, checked, nodes)
            }
            Service::Canonicalize => write_text(text, tokens, notes, roots, checked.tokens, buffer),
            Service::Locate => Ok(0),
        },
    }
}

// The same with rows for so many tokens.
fn serve_with<const TOKENS: usize>(
    text: &[u8],
    service: Service,
    nodes: &mut [u32],
    buffer: &mut [u8],
) -> Result<usize, Refused>
    requires short { length text.now ≤ 16384 }
    requires room { (min (length text.now) 1024 ≤ TOKENS) × (TOKENS ≤ 1024) }
    ensures { Serves service text.now nodes.old nodes.new buffer.old buffer.new result }
{
    let mut tokens = [Token::BLANK; TOKENS];
    let mut notes = [Note::NONE; TOKENS];
    let mut roots = [Operands::NONE; TOKENS];
    serve_in(
        text,
        &mut tokens,
        &mut notes,
        &mut roots,
        service,
        nodes,
        buffer,
    )
}

// Check 1, and rows for the tokens: no text has more tokens than bytes.
pub fn serve(
    text: &[u8],
    service: Service,
    nodes: &mut [u32],
    buffer: &mut [u8],
) -> Result<usize, Refused>
    ensures { Serves service text.now nodes.old nodes.new buffer.old buffer.new result }
{
    if MAX_BYTES < text.len() {
        return Err(Refused {
            refusal: Refusal::TextTooLong,
            at: MAX_BYTES,
        });
    }
    if text.len() <= TINY {
        return serve_with::<TINY>(text, service, nodes, buffer);
    }
    if text.len() <= SHORT {
        return serve_with::<SHORT>(text, service, nodes, buffer);
    }
    serve_with::<MAX_TOKENS>(text, service, nodes, buffer)
}
