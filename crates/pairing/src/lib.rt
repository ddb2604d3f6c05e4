// Brackets and blocks: document 01's refusals 6 and 7, and which token closes which.
#![tactic(auto)]

ghost use Rattle.std.specs.Prelude.{◌≡◌, List, [], ◌<◌};
ghost use Rattle.grammar.specs.Open.{Open};
ghost use Rattle.grammar.specs.Nesting.{move};
ghost use Rattle.grammar.specs.Coded.{token_of};
ghost use Rattle.rows.specs.Kinds.{kind_code};
ghost use Rattle.rows.specs.Fields.{Holds};
ghost use Rattle.pairing.specs.Pairing.{innermost_of, coded_move, Pairing};

use refusals::{Refusal, Refused};
use rows::token::{Kind, Token};

pub const MAX_DEPTH: usize = 32;

// Places for the pairs that are open, by depth. At depth 0 nothing is.
const PLACES: usize = 33;

// What is open innermost.
#[derive(Clone, Copy, PartialEq, Eq)]
pub enum Innermost {
    Nothing,
    Bracket,
    Declarations,
    Body,
}

// What a token does there.
#[derive(Drop)]
pub enum Move {
    Stay,
    Break,
    Open { pair: Innermost },
    Turn,
    Close,
}

// A pair that is open, and its last opener: of a body the block's `in`.
#[derive(Clone, Copy)]
pub struct OpenPair {
    pub pair: Innermost,
    pub opener: u16,
}

// The move of a token of structure.
#[tactic(auto, using(crate::proofs::Moves::moves), unfolding(crate::proofs::Moves::move_by))]
pub fn move_of(innermost: Innermost, kind: Kind) -> Move
    requires { 3 < kind_code kind }
    ensures { (os : List Open) → innermost ≡ innermost_of os → result ≡ coded_move (move os (token_of (kind_code kind) [])) }
{
    match (kind, innermost) {
        (Kind::Semicolon, Innermost::Declarations) => Move::Stay,
        (Kind::In, Innermost::Declarations) => Move::Turn,
        (_, Innermost::Declarations) => Move::Break,
        (Kind::Opening, _) => Move::Open {
            pair: Innermost::Bracket,
        },
        (Kind::Let, _) => Move::Open {
            pair: Innermost::Declarations,
        },
        (Kind::Closing, Innermost::Bracket) => Move::Close,
        (Kind::End, Innermost::Body) => Move::Close,
        _ => Move::Break,
    }
}

// Checks 6 and 7 on the first `count` tokens of a row, and the closers; whether there are blocks. The pairs that are open stand in `pairs`
// from 1 to `depth`: a fixed array with a length beside it, since there is no heap.
pub fn pair_up(tokens: &mut [Token], count: usize) -> Result<bool, Refused>
    requires { Holds tokens.old count }
    ensures { Pairing tokens.old count tokens.new result }
{
    let mut pairs = [OpenPair {
        pair: Innermost::Nothing,
        opener: 0,
    }; PLACES];
    let mut blocks = false;
    let mut depth: usize = 0;
    for i in 0..count {
        let kind = tokens[i].kind;
        if !kind.is_atom() {
            match move_of(pairs[depth].pair, kind) {
                Move::Stay => {}
                Move::Break => {
                    return Err(Refused {
                        refusal: Refusal::Unpaired,
                        at: i,
                    });
                }
                Move::Open { pair } => {
                    if MAX_DEPTH <= depth {
                        return Err(Refused {
                            refusal: Refusal::TooDeep,
                            at: i,
                        });
                    }
                    depth += 1;
                    pairs[depth] = OpenPair {
                        pair,
                        opener: i as u16,
                    };
                }
                Move::Turn => {
                    let opener = pairs[depth].opener as usize;
                    tokens[opener].closer = i as u16;
                    blocks = true;
                    pairs[depth] = OpenPair {
                        pair: Innermost::Body,
                        opener: i as u16,
                    };
                }
                Move::Close => {
                    let opener = pairs[depth].opener as usize;
                    tokens[opener].closer = i as u16;
                    depth -= 1;
                }
            }
        }
    }
    if 0 < depth {
        return Err(Refused {
            refusal: Refusal::Unpaired,
            at: count,
        });
    }
    Ok(blocks)
}
