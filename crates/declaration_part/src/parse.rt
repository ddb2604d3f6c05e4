// One declaration at the front of a declaration part: what it declares, and where its operator stands.
ghost use Rattle.std.specs.Prelude.{◌≡◌, option_copied};
ghost use Rattle.grammar.specs.Token.{atom, symbol};
ghost use Rattle.grammar.specs.Declaration.{declaration, fixity_named, associativity_for};
ghost use Rattle.rows.specs.Codes.{fixity_in, associativity_in};
ghost use Rattle.rows.specs.Fields.{Holds};
ghost use Rattle.rows.specs.Tokens.{range};
ghost use Rattle.declaration_part.specs.Named.{found, precedence_read};
ghost use Rattle.declaration_part.specs.Parsing.{Parses, Parsable};
ghost use Rattle.declaration_part.specs.Parts.{IsPart, written_from, precedence_from, operator_at};

use crate::walk;
use crate::walk::Span;
use rows::fixity::{Associativity, Fixity};
use rows::role;
use rows::role::Role;
use rows::token::{Kind, Token};

// A role for an operator, or a `plain` declaration, with where the operator stands.
#[derive(Clone, Copy)]
pub enum Declaration {
    Role {
        fixity: Fixity,
        role: Role,
        operator: Span,
    },
    Clears {
        operator: Span,
    },
}

// The precedence that digits name, from 1 to 1200.
#[tactic(auto, using(crate::proofs::Precedences::read_some, crate::proofs::Precedences::read_zero, crate::proofs::Precedences::read_high))]
pub fn precedence(digits: &[u8]) -> Option<u16>
    ensures { result ≡ precedence_read digits.now }
{
    let mut value: u16 = 0;
    for &b in digits {
        value = value * 10 + b.saturating_sub(b'0') as u16;
        if role::MAX_PRECEDENCE < value {
            value = role::MAX_PRECEDENCE + 1;
        }
    }
    match value {
        1..=role::MAX_PRECEDENCE => Some(value),
        _ => None,
    }
}

// The fixity that a word names.
#[tactic(auto, using(byte_strings::proofs::Equality::same_reads, std::proofs::lemmas::Bool::Decides::nat_tests), unfolding(grammar::specs::Declaration::fixity_named, grammar::specs::Declaration::fixity_word))]
pub fn fixity_named(word: &[u8]) -> Option<Fixity>
    ensures { found fixity_in result ≡ fixity_named word.now }
{
    match word {
        b"infix" => Some(Fixity::Infix),
        b"prefix" => Some(Fixity::Prefix),
        b"postfix" => Some(Fixity::Postfix),
        _ => None,
    }
}

// The associativity that a word names, if the fixity may have it.
#[tactic(auto, using(byte_strings::proofs::Equality::same_reads, std::proofs::lemmas::Bool::Decides::nat_tests), unfolding(grammar::specs::Declaration::associativity_for, grammar::specs::Declaration::associativity_named, grammar::specs::Declaration::associativity_word, grammar::specs::Declaration::symbol_of, grammar::specs::Operator::allowed))]
pub fn associativity_named(fixity: Fixity, word: &[u8]) -> Option<Associativity>
    ensures { found associativity_in result ≡ associativity_for (fixity_in fixity) (atom (symbol word.now)) }
{
    match word {
        b"left" if fixity != Fixity::Prefix => Some(Associativity::Left),
        b"right" if fixity != Fixity::Postfix => Some(Associativity::Right),
        b"non" => Some(Associativity::Non),
        _ => None,
    }
}

// The operator at token `at`, which stands at a place of the text, with a `;` behind it; or the first of them that does not stand there.
#[tactic(auto, using(std::proofs::lemmas::Bool::Decides::nat_tests), unfolding(crate::specs::Parts::stands, crate::specs::Parts::operator_at))]
fn operator_at(tokens: &[Token], at: usize, to: usize, place: Span) -> Result<Span, usize>
    requires { Holds tokens.now to }
    ensures { result ≡ operator_at tokens.now at to place }
{
    if to <= at || tokens[at].kind != Kind::Symbol {
        return Err(at);
    }
    let behind = at + 1;
    if to <= behind || tokens[behind].kind != Kind::Semicolon {
        return Err(behind);
    }
    Ok(place)
}

// The word at token `at`, which stands at a place of the text.
#[tactic(auto, using(std::proofs::lemmas::Bool::Decides::nat_tests), unfolding(crate::specs::Parts::stands, crate::specs::Parts::written_from))]
fn word_of<'a>(
    text: &'a [u8],
    tokens: &[Token],
    at: usize,
    to: usize,
    place: Span,
) -> Option<&'a [u8]>
    requires { Holds tokens.now to × IsPart text.now place }
    ensures { option_copied result ≡ written_from 1 text.now tokens.now at to place }
{
    if to <= at || tokens[at].kind != Kind::Symbol {
        return None;
    }
    Some(&text[place.start..place.end])
}

// The precedence at token `at`, which stands at a place of the text.
#[tactic(auto, using(std::proofs::lemmas::Bool::Decides::nat_tests), unfolding(crate::specs::Parts::stands, crate::specs::Parts::precedence_from))]
fn precedence_of(text: &[u8], tokens: &[Token], at: usize, to: usize, place: Span) -> Option<u16>
    requires { Holds tokens.now to × IsPart text.now place }
    ensures { result ≡ precedence_from text.now tokens.now at to place }
{
    if to <= at || tokens[at].kind != Kind::Number {
        return None;
    }
    precedence(&text[place.start..place.end])
}

// The declaration at token `from` of a part that ends before token `to`, or the first token that does not fit. The `let` or `;` before it is
// the first token from offset `before` on.
pub fn declaration_at(
    text: &[u8],
    tokens: &[Token],
    from: usize,
    to: usize,
    before: usize,
) -> Result<Declaration, usize>
    requires { Parsable text.now tokens.now from to before }
    ensures { Parses tokens.now from (declaration (range text.now tokens.now from to)) result }
{
    let places = walk::find_places(text, before);
    let word = word_of(text, tokens, from, to, places.first).ok_or(from)?;
    if byte_strings::equal(word, b"plain") {
        let operator = operator_at(tokens, from + 1, to, places.second)?;
        return Ok(Declaration::Clears { operator });
    }
    let fixity = fixity_named(word).ok_or(from)?;
    let side = word_of(text, tokens, from + 1, to, places.second).ok_or(from + 1)?;
    let associativity = associativity_named(fixity, side).ok_or(from + 1)?;
    let level = precedence_of(text, tokens, from + 2, to, places.third).ok_or(from + 2)?;
    let operator = operator_at(tokens, from + 3, to, places.fourth)?;
    Ok(Declaration::Role {
        fixity,
        role: Role::new(associativity, level),
        operator,
    })
}
