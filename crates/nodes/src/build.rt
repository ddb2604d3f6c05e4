// The builder calls itself on the tokens left and right of the root; each operand's nodes go into a lent part of the node table behind those
// of its left sibling. It calls itself at two places only, and keeps no token and no role across a call: each costs stack in every frame.
ghost use Rattle.std.specs.Prelude.{◌≡◌, ◌-◌, ◌≤◌};
ghost use Rattle.rows.specs.Fields.{Within, left};
ghost use Rattle.nodes.specs.First.{opener_of, HasFirst, first_part};
ghost use Rattle.nodes.specs.Building.{Buildable, Built, rows_of};

use crate::kind::NodeKind;
use crate::node;
use rows::below;
use rows::operands::Operands;
use rows::roles::Note;
use rows::token::{Kind, Token};

// The rows of a text: its tokens, what is noted of them, and their operands.
#[derive(Clone, Copy)]
pub struct Rows<'a> {
    pub tokens: &'a [Token],
    pub notes: &'a [Note],
    pub roots: &'a [Operands],
}

// The token that opens the span of a bracket pair or a block: the `(`, or the block's `in`.
#[tactic(auto, unfolding(crate::specs::First::opener_of))]
fn opener(tokens: &[Token], at: usize) -> usize
    requires { Within tokens.now at }
    ensures { result ≡ opener_of tokens.now at }
{
    if tokens[at].kind == Kind::Opening {
        return at;
    }
    tokens[at].closer as usize
}

// The root of the span that the token at `at` opens, a `(` or an `in`.
fn inside(roots: &[Operands], at: usize) -> usize
    requires { Within roots.now at × (1 ≤ left roots.now at) }
    ensures { result ≡ left roots.now at - 1 }
{
    let root = roots[at].left as usize;
    root - 1
}

// A part of the tokens that has a tree of its own, with its root.
#[derive(Clone, Copy)]
pub struct Part {
    pub from: usize,
    pub root: usize,
    pub to: usize,
}

// What is built first below the token at `at`: what a bracket pair or a block holds, or the left operand of an operator.
#[tactic(auto, unfolding(crate::specs::First::first_part, crate::specs::First::operand_part))]
fn first(rows: &Rows, from: usize, at: usize) -> Option<Part>
    requires { HasFirst rows.now.tokens.now rows.now.roots.now at }
    ensures { result ≡ first_part rows.now.tokens.now rows.now.roots.now from at }
{
    if !rows.tokens[at].kind.is_atom() {
        let opener = opener(rows.tokens, at);
        return Some(Part {
            from: opener + 1,
            root: inside(rows.roots, opener),
            to: rows.tokens[opener].closer as usize,
        });
    }
    let left = rows.roots[at].left as usize;
    if left == 0 {
        return None;
    }
    Some(Part {
        from,
        root: left - 1,
        to: at,
    })
}

// Writes the nodes of the tokens from `from` to `to`, whose root is `at`, and answers how many they are; `base` nodes stand before.
pub fn build(
    rows: &Rows,
    from: usize,
    at: usize,
    to: usize,
    nodes: &mut [u32],
    base: usize,
) -> usize
    requires { Buildable (rows_of rows.now) from at to nodes.old base }
    ensures { Built (rows_of rows.now) from at to nodes.old base nodes.new result }
{
    let l = match first(rows, from, at) {
        Some(part) => build(rows, part.from, part.root, part.to, nodes, base),
        None => 0,
    };
    let token = rows.tokens[at];
    if !token.kind.is_atom() {
        if token.kind == Kind::Opening {
            return node::bracket(base, l, nodes);
        }
        let in_token = rows.tokens[opener(rows.tokens, at)];
        return node::block(token, in_token, base, l, nodes);
    }
    let right = rows.roots[at].right as usize;
    if right == 0 {
        if l == 0 {
            return node::leaf(token, nodes);
        }
        let role = rows.notes[at].roles.between(l, right);
        return node::unary(token, NodeKind::Postfix as u32, role, base, l, nodes);
    }
    let after = l * node::WORDS;
    if below::stands_alone(rows.tokens, rows.roots, right - 1) {
        let r = node::leaf(rows.tokens[right - 1], &mut nodes[after..]);
        return node::prefix_or_infix(token, rows.notes[at].roles, base, l, r, nodes);
    }
    let r = build(rows, at + 1, right - 1, to, &mut nodes[after..], base + l);
    node::prefix_or_infix(rows.tokens[at], rows.notes[at].roles, base, l, r, nodes)
}
