// The token at a place of a text.
ghost use Rattle.std.specs.Prelude.{◌≡◌, ◌+◌, ◌<◌, length, drop};
ghost use Rattle.grammar.specs.Scan.{taken, keyword_or_symbol, at_most, front, quoted_name};
ghost use Rattle.grammar.specs.Coded.{kind_of};
ghost use Rattle.rows.specs.Kinds.{kind_code};
ghost use Rattle.scanner.specs.Scanning.{Fronts, OfKind};

use crate::{classes, runs};
use byte_classes::classes::Class;
use refusals::Refusal;
use rows::token::Kind;

pub const MAX_NAME: usize = 63;

pub const MAX_DIGITS: usize = 9;

// A token at the front of bytes: its kind, and how many bytes it has.
#[derive(Clone, Copy)]
pub struct Front {
    pub kind: Kind,
    pub size: usize,
}

// The kind of a word: a keyword's, or that of a symbol.
#[tactic(auto, using(byte_strings::proofs::Equality::same_reads), unfolding(grammar::specs::Scan::keyword_or_symbol, grammar::specs::Coded::kind_of, grammar::specs::Token::structure_number))]
pub fn word_kind(word: &[u8]) -> Kind
    ensures { kind_code result ≡ kind_of (keyword_or_symbol word.now) }
{
    match word {
        b"let" => Kind::Let,
        b"in" => Kind::In,
        b"end" => Kind::End,
        _ => Kind::Symbol,
    }
}

// A run of bytes as a token of a kind, if it is not too long.
fn limited(kind: Kind, size: usize, most: usize) -> Result<Front, Refusal>
    ensures { OfKind (kind_code kind) (at_most most size) result }
{
    if most < size {
        return Err(Refusal::TokenTooLong);
    }
    Ok(Front { kind, size })
}

// The quoted name whose opening quote stands at `at`.
fn quoted(text: &[u8], at: usize) -> Result<Front, Refusal>
    requires { at < length text.now }
    ensures { Fronts (quoted_name (drop (at + 1) text.now)) result }
{
    // `n` characters, which end at `e`. A character has one byte or two, so the place moves on by what is found and this is no `for`.
    let mut n: usize = 0;
    let mut e = at + 1;
    let mut next = runs::character_end(text, e);
    while e < next {
        n += 1;
        e = next;
        next = runs::character_end(text, e);
    }
    let written = e - at - 1;
    if !(1..=MAX_NAME).contains(&n) || !runs::is_quote(text, e) {
        return Err(Refusal::BadQuotedName);
    }
    Ok(Front {
        kind: Kind::Quoted,
        size: written + 2,
    })
}

// A token of one byte.
fn solo(kind: Kind) -> Result<Front, Refusal>
    ensures { OfKind (kind_code kind) (λ t. taken t 1) result }
{
    Ok(Front { kind, size: 1 })
}

// The token at `at`, where a byte stands.
pub fn front_at(text: &[u8], at: usize) -> Result<Front, Refusal>
    requires { at < length text.now }
    ensures { Fronts (front (drop at text.now)) result }
{
    match classes::class(text[at]) {
        Class::Letter => {
            let e = runs::word_end(text, at + 1);
            limited(word_kind(&text[at..e]), e - at, MAX_NAME)
        }
        Class::Digit => limited(
            Kind::Number,
            runs::run_end(text, at + 1, Class::Digit as u8) - at,
            MAX_DIGITS,
        ),
        Class::Sign => limited(
            Kind::Symbol,
            runs::run_end(text, at + 1, Class::Sign as u8) - at,
            MAX_NAME,
        ),
        Class::Quote => quoted(text, at),
        Class::Opening => solo(Kind::Opening),
        Class::Closing => solo(Kind::Closing),
        Class::Semicolon => solo(Kind::Semicolon),
        _ => Err(Refusal::NoToken),
    }
}
