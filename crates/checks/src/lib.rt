// Refusals 2 to 11 and 17 in their order, over lent rows.
#![tactic(auto)]

ghost use Rattle.std.specs.Prelude.{◌≡◌, false, List, ℕ};
ghost use Rattle.rows.specs.Tokens.{Unblocked};
ghost use Rattle.rows.specs.Fields.{NoteRow, RootRow};
ghost use Rattle.checks.specs.Checking.{Checkable, Tokenized, Matched, Classified, offset_in, span_in, PlacedIn, SpansChecked, Checking};
ghost use Rattle.checks.specs.declared.Unread.TheVariants as Why;

use climb::spans;
use refusals::{Refusal, Refused};
use rows::operands::Operands;
use rows::roles::Note;
use rows::token::Token;
use scanner::scan;

// How many tokens and nodes there are, and the token of the root.
#[derive(Clone, Copy)]
pub struct Checked {
    pub tokens: usize,
    pub nodes: usize,
    pub root: usize,
}

// Why a text is not read: a refusal and its offset; or, of 11, the place of the span without a tree and that at which it is lost.
#[derive(Clone, Copy)]
pub enum Unread {
    Refused { refusal: Refusal, offset: usize },
    NoTree { span: usize, lost: usize },
}

impl From<Refused> for Unread {
    ghost from_gives = { λ r u. u ≡ Why.Refused r.refusal r.at };

    fn from(refused: Refused) -> Unread {
        Unread::Refused {
            refusal: refused.refusal,
            offset: refused.at,
        }
    }
}

// The offset of token number `i`; behind the last token stands the end of the text.
fn offset_of(text: &[u8], tokens: &[Token], count: usize, i: usize) -> usize
    requires { (R : NoteRow) × (O : RootRow) × Tokenized text.now tokens.now R O count }
    ensures { result ≡ offset_in text.now tokens.now count i }
{
    if i < count {
        return tokens[i].offset();
    }
    text.len()
}

// The place of a span: the offset of its opener, 0 of the whole text.
fn span_offset(text: &[u8], tokens: &[Token], count: usize, opener: Option<usize>) -> usize
    requires { (R : NoteRow) × (O : RootRow) × Tokenized text.now tokens.now R O count }
    ensures { result ≡ span_in text.now tokens.now count opener }
{
    match opener {
        Some(i) => offset_of(text, tokens, count, i),
        None => 0,
    }
}

// A refusal at a token as one at that token's offset.
fn at_offset(text: &[u8], tokens: &[Token], count: usize, refused: Refused) -> Refused
    requires { (R : NoteRow) × (O : RootRow) × Tokenized text.now tokens.now R O count }
    ensures { PlacedIn text.now tokens.now count refused result }
{
    Refused {
        refusal: refused.refusal,
        at: offset_of(text, tokens, count, refused.at),
    }
}

// Check 11.
fn check_spans(
    text: &[u8],
    tokens: &[Token],
    notes: &[Note],
    count: usize,
    nested: bool,
    roots: &mut [Operands],
) -> Result<Checked, Unread>
    requires { Classified text.now tokens.now notes.now roots.old count nested }
    ensures { SpansChecked text.now tokens.now notes.now roots.new result }
{
    match spans::check(tokens, notes, count, nested, roots) {
        Ok(trees) => Ok(Checked {
            tokens: count,
            nodes: trees.nodes,
            root: trees.root,
        }),
        Err(treeless) => Err(Unread::NoTree {
            span: span_offset(text, tokens, count, treeless.opener),
            lost: offset_of(text, tokens, count, treeless.lost),
        }),
    }
}

// Checks 8 to 11 and 17.
fn check_blocks(
    text: &[u8],
    tokens: &[Token],
    count: usize,
    nested: bool,
    blocks: bool,
    notes: &mut [Note],
    roots: &mut [Operands],
) -> Result<Checked, Unread>
    requires { Matched text.now tokens.now notes.old roots.old count nested × (blocks ≡ false → Unblocked tokens.now count) }
    ensures { SpansChecked text.now tokens.now notes.new roots.new result }
{
    if let Err(refused) = resolving::resolve_text(text, tokens, count, blocks, notes) {
        return Err(at_offset(text, tokens, count, refused).into());
    }
    check_spans(text, tokens, notes, count, nested, roots)
}

// Checks 6 to 11 and 17.
fn check_tokens(
    text: &[u8],
    tokens: &mut [Token],
    count: usize,
    notes: &mut [Note],
    roots: &mut [Operands],
) -> Result<Checked, Unread>
    requires { Tokenized text.now tokens.old notes.old roots.old count }
    ensures { SpansChecked text.now tokens.new notes.new roots.new result }
{
    match pairing::pair_up(tokens, count) {
        Ok(blocks) => check_blocks(text, tokens, count, true, blocks, notes, roots),
        Err(refused) => Err(at_offset(text, tokens, count, refused).into()),
    }
}

// Checks 2 to 11 and 17 of a text that is not too long. Of a blank text, which passes, there is nothing to say.
pub fn check(
    text: &[u8],
    tokens: &mut [Token],
    notes: &mut [Note],
    roots: &mut [Operands],
) -> Result<Option<Checked>, Unread>
    requires { Checkable text.now tokens.old notes.old roots.old }
    ensures { Checking text.now tokens.new notes.new roots.new result }
{
    let scanned = scan::scan(text, tokens)?;
    let count = scanned.count;
    if count == 0 {
        return Ok(None);
    }
    if scanned.nested {
        return Ok(Some(check_tokens(text, tokens, count, notes, roots)?));
    }
    Ok(Some(check_blocks(text, tokens, count, false, false, notes, roots)?))
}
