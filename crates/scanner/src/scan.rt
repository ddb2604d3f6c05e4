// All tokens of a text.
ghost use Rattle.std.specs.Prelude.{◌≡◌, length};
ghost use Rattle.grammar.specs.Fault.{most_tokens};
ghost use Rattle.grammar.specs.Scan.{scan as scan_of};
ghost use Rattle.rows.specs.Kinds.{kind_code};
ghost use Rattle.scanner.specs.Scanning.{Scannable, Storable, Stores, Scans};

use crate::fronts::Front;
use crate::{classes, fronts};
use byte_classes::classes::Class;
use refusals::{Refusal, Refused};
use rows::token::{Kind, Token};

pub const MAX_TOKENS: usize = 1024;

// How many tokens there are, and whether any is of structure.
#[derive(Clone, Copy)]
pub struct Scanned {
    pub count: usize,
    pub nested: bool,
}

// Token number `n` with its bytes: a quoted name's stand between the outer quotes, and brackets have none.
fn store(tokens: &mut [Token], n: usize, front: Front, at: usize)
    requires { Storable tokens.old n (kind_code front.kind) at front.size }
    ensures { Stores tokens.old tokens.new n (kind_code front.kind) at front.size }
{
    let kind = front.kind;
    let (start, size) = match kind {
        Kind::Quoted => (at + 1, front.size - 2),
        Kind::Opening | Kind::Closing => (at, 0),
        _ => (at, front.size),
    };
    tokens[n] = Token {
        kind,
        start: start as u16,
        size: size as u16,
        ..tokens[n]
    };
}

// The tokens of a text that is not too long.
pub fn scan(text: &[u8], tokens: &mut [Token]) -> Result<Scanned, Refused>
    requires { Scannable text.now tokens.old }
    ensures scanned { Scans text.now tokens.new (scan_of most_tokens 0 text.now) result }
    ensures long { length tokens.new ≡ length tokens.old }
{
    // The place moves on by a blank byte or by a token, so this is no `for`.
    let mut count: usize = 0;
    let mut at: usize = 0;
    let mut nested = false;
    while at < text.len() {
        if classes::class(text[at]) == Class::Blank {
            at += 1;
        } else {
            let front = fronts::front_at(text, at).map_err(|refusal| Refused { refusal, at })?;
            if MAX_TOKENS <= count {
                return Err(Refused {
                    refusal: Refusal::TooManyTokens,
                    at,
                });
            }
            store(tokens, count, front, at);
            nested |= !front.kind.is_atom();
            count += 1;
            at += front.size;
        }
    }
    Ok(Scanned { count, nested })
}
