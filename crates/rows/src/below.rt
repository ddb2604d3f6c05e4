// What stands below a token of a tree, by the rows of tokens and of roots.
ghost use Rattle.std.specs.Prelude.{◌≡◌, ℕ};
ghost use Rattle.rows.specs.Fields.{kind, Within};
ghost use Rattle.rows.specs.Below.{stands_alone, Leads};

use crate::operands::Operands;
use crate::token::{Kind, Token};

// Whether the token at `at` stands over nothing: an atom that is no operator.
#[tactic(auto, unfolding(crate::specs::Below::stands_alone))]
pub fn stands_alone(tokens: &[Token], roots: &[Operands], at: usize) -> bool
    requires { Within tokens.now at × Within roots.now at }
    ensures { result ≡ stands_alone tokens.now roots.now at }
{
    if !tokens[at].kind.is_atom() {
        return false;
    }
    let operands = roots[at];
    if operands.left != 0 {
        return false;
    }
    operands.right == 0
}

// The root of what a bracket pair holds, nested pairs looked through. It goes from each pair to what it holds and counts nothing, so it is no
// `for`.
#[tactic(auto, using(crate::proofs::BelowTokens::leads_within, crate::proofs::BelowTokens::leads_there, crate::proofs::BelowTokens::leads_through))]
pub fn content(tokens: &[Token], roots: &[Operands], opener: usize) -> usize
    requires { (kind tokens.now opener ≡ 4) × ((h : ℕ) × Leads tokens.now roots.now opener h) }
    ensures { (h : ℕ) → Leads tokens.now roots.now opener h → result ≡ h }
{
    let mut at = roots[opener].left as usize - 1;
    while tokens[at].kind == Kind::Opening {
        at = roots[at].left as usize - 1;
    }
    at
}
