// The part of the text that each token leaves, and these parts with one space between.
ghost use Rattle.std.specs.Prelude.{◌≡◌, ℕ, ◌+◌, ◌≤◌, ◌<◌, length};
ghost use Rattle.grammar.specs.Token.{is_symbol};
ghost use Rattle.grammar.specs.Canonical.{join_pieces};
ghost use Rattle.grammar.specs.Answer.{Reading, over};
ghost use Rattle.rows.specs.Fields.{token, Holds};
ghost use Rattle.rows.specs.Reading.{Ready};
ghost use Rattle.byte_strings.specs.Puts.{Put};
ghost use Rattle.canonical_text.specs.Pieces.{pieces, behind, InText, Prepared};
ghost use Rattle.canonical_text.specs.Trimming.{stays_quoted, IsName, Trimmable, Trimmed, TrimmedRow};

use crate::brackets;
use byte_classes::classes::Class;
use rows::operands::Operands;
use rows::roles::{Note, Roles};
use rows::token::{Kind, Token};
use scanner::{classes, fronts, runs};

// Whether the bytes are one word or sign and no keyword.
fn is_symbol(name: &[u8]) -> bool
    requires { IsName name.now }
    ensures { result ≡ is_symbol name.now }
{
    match classes::class(name[0]) {
        Class::Sign => runs::run_end(name, 0, Class::Sign as u8) == name.len(),
        Class::Letter => {
            runs::word_end(name, 0) == name.len() && fronts::word_kind(name) == Kind::Symbol
        }
        _ => false,
    }
}

// Whether a quoted name stays quoted: its bytes as written have a role, or are no symbol. Where they have a quote they are none, and nor
// are its characters; else they are its characters.
#[tactic(auto, unfolding(crate::specs::Trimming::stays_quoted, crate::specs::Trimming::has_roles))]
fn stays_quoted(roles: Roles, name: &[u8]) -> bool
    requires { IsName name.now }
    ensures { result ≡ stays_quoted roles name.now }
{
    !roles.prefix.is_none()
        || !roles.infix.is_none()
        || !roles.postfix.is_none()
        || !is_symbol(name)
}

// The part that a token leaves takes the place of its bytes. A quoted name is left as it is written, so its quotes stay doubled.
fn trim_token(text: &[u8], roles: Roles, token: &mut Token)
    requires { Trimmable text.now token.old }
    ensures { Trimmed text.now roles token.old token.new }
{
    match token.kind {
        Kind::Number => {
            let zeros = byte_strings::zeros(token.written(text)) as u16;
            token.start += zeros;
            token.size -= zeros;
        }
        Kind::Quoted => {
            if stays_quoted(roles, token.written(text)) {
                token.start -= 1;
                token.size += 2;
            }
        }
        _ => {}
    }
}

// Trims each of `count` tokens; the answer is how long the parts are together with one space between.
fn trim(text: &[u8], notes: &[Note], tokens: &mut [Token], count: usize) -> usize
    requires { Holds tokens.old count × Holds notes.now count × ((j : ℕ) → j < count → Trimmable text.now (token tokens.old j)) }
    ensures { TrimmedRow text.now notes.now tokens.old count tokens.new result }
{
    let mut total: usize = 0;
    for i in 0..count {
        trim_token(text, notes[i].roles, &mut tokens[i]);
        let size = tokens[i].size as usize;
        if size != 0 {
            total += size + 1;
        }
    }
    if total == 0 {
        return 0;
    }
    total - 1
}

// Makes the row of the tokens of a text that is read give the parts of its canonical text; the answer is how long that is.
pub fn prepare(
    text: &[u8],
    tokens: &mut [Token],
    notes: &[Note],
    roots: &[Operands],
    count: usize,
) -> usize
    requires { (r : Reading) × Ready text.now tokens.old notes.now roots.now r × (count ≡ length r.tokens) }
    ensures { (r : Reading) → Ready text.now tokens.old notes.now roots.now r
        → count ≡ length r.tokens → Prepared text.now tokens.new count r result }
{
    brackets::keep(tokens, notes, roots, count);
    trim(text, notes, tokens, count)
}

// Puts a part to place `n` of a buffer, with a space before it if it is not the first, and answers the place behind it.
#[tactic(auto, unfolding(crate::specs::Pieces::behind))]
fn put_next(buffer: &mut [u8], n: usize, part: &[u8]) -> usize
    requires { n + length (behind n part.now) ≤ length buffer.old }
    ensures { Put buffer.old n (behind n part.now) buffer.new result }
{
    if n == 0 {
        return byte_strings::put(buffer, n, part);
    }
    buffer[n] = b' ';
    byte_strings::put(buffer, n + 1, part)
}

// Writes the parts of `count` tokens with one space between over the front of a buffer that holds them.
pub fn write(text: &[u8], tokens: &[Token], count: usize, buffer: &mut [u8])
    requires { InText text.now tokens.now count × (length (join_pieces (pieces text.now tokens.now 0 count)) ≤ length buffer.old) }
    ensures { buffer.new ≡ over (join_pieces (pieces text.now tokens.now 0 count)) buffer.old }
{
    let mut n: usize = 0;
    for token in &tokens[..count] {
        if token.size != 0 {
            n = put_next(buffer, n, token.written(text));
        }
    }
}
