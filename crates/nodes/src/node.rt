// The words of one node: kind, first child, second child, offset, length, precedence.
ghost use Rattle.std.specs.Prelude.{◌≡◌, ◌+◌, ◌-◌, ◌*◌, ◌≤◌};
ghost use Rattle.std.proofs.lemmas.List.Edits.{sets};
ghost use Rattle.grammar.specs.Nodes.{node_words, words_per_node, infix_kind, bracket_kind};
ghost use Rattle.rows.specs.InUse.{role_between};
ghost use Rattle.nodes.specs.Node.{precedence_of, token_words, atom_words, block_words, prefix_or_infix_words, HasNode};
ghost use Rattle.nodes.specs.Node.{EndsInChild, Appended};

use crate::kind::NodeKind;
use rows::role::Role;
use rows::roles::Roles;
use rows::token::{Kind, Token};

pub const WORDS: usize = 6;

// The bytes of the keyword `in`.
const IN_SIZE: u32 = 2;

// A node. Its kind is a number, as in the table, which C reads.
#[derive(Clone, Copy)]
pub struct Node {
    pub kind: u32,
    pub first: u32,
    pub second: u32,
    pub offset: u32,
    pub size: u32,
    pub precedence: u16,
}

impl Node {
    // A node with the bytes of a token, as written.
    fn of_token(kind: u32, first: u32, second: u32, token: Token, precedence: u16) -> Node
        ensures { node_words result.kind result.first result.second result.offset result.size result.precedence
            ≡ token_words kind first second token precedence }
    {
        Node {
            kind,
            first,
            second,
            offset: u32::from(token.start),
            size: u32::from(token.size),
            precedence,
        }
    }

    // The node with number `at` of `nodes`.
    #[tactic(auto, unfolding(grammar::specs::Nodes::node_words))]
    pub fn write(self, nodes: &mut [u32], at: usize)
        requires { HasNode nodes.old at }
        ensures { nodes.new ≡ sets nodes.old (at * words_per_node)
            (node_words self.kind self.first self.second self.offset self.size self.precedence) }
    {
        let w = at * WORDS;
        nodes[w] = self.kind;
        nodes[w + 1] = self.first;
        nodes[w + 2] = self.second;
        nodes[w + 3] = self.offset;
        nodes[w + 4] = self.size;
        nodes[w + 5] = u32::from(self.precedence);
    }
}

// The number of the last of `n` nodes, as a child.
fn last(n: usize) -> u32
    requires { EndsInChild n }
    ensures { result ≡ n - 1 }
{
    (n - 1) as u32
}

// The node of an atom.
#[tactic(auto, unfolding(crate::specs::Node::atom_kind))]
pub fn leaf(token: Token, nodes: &mut [u32]) -> usize
    requires { HasNode nodes.old 0 }
    ensures { Appended (atom_words token) nodes.old 0 nodes.new result }
{
    if token.kind == Kind::Number {
        Node::of_token(NodeKind::Number as u32, 0, 0, token, 0).write(nodes, 0);
        return 1;
    }
    Node::of_token(NodeKind::Name as u32, 0, 0, token, 0).write(nodes, 0);
    1
}

// The node of an infix operator in the role, behind the `l` nodes of its left operand and the `r` nodes of its right one; `base` nodes
// stand before.
pub fn infix(token: Token, role: Role, base: usize, l: usize, r: usize, nodes: &mut [u32]) -> usize
    requires { EndsInChild (base + l) × EndsInChild (base + (l + r)) × HasNode nodes.old (l + r) }
    ensures { Appended (token_words infix_kind (base + l - 1) (base + (l + r) - 1) token (precedence_of role.code))
        nodes.old (l + r) nodes.new result }
{
    let n = l + r;
    let left = last(base + l);
    let right = last(base + n);
    let precedence = role.precedence();
    Node::of_token(NodeKind::Infix as u32, left, right, token, precedence).write(nodes, n);
    n + 1
}

// The node of a prefix or postfix operator (`kind`) in the role, behind the `n` nodes of its operand.
pub fn unary(token: Token, kind: u32, role: Role, base: usize, n: usize, nodes: &mut [u32]) -> usize
    requires { EndsInChild (base + n) × HasNode nodes.old n }
    ensures { Appended (token_words kind (base + n - 1) 0 token (precedence_of role.code))
        nodes.old n nodes.new result }
{
    let operand = last(base + n);
    let precedence = role.precedence();
    Node::of_token(kind, operand, 0, token, precedence).write(nodes, n);
    n + 1
}

// The node of an operator with these roles, behind the `l` nodes of its left operand, 0 if it has none, and the `r` nodes of its right one.
#[tactic(auto, unfolding(crate::specs::Node::prefix_or_infix_words))]
pub fn prefix_or_infix(
    token: Token,
    roles: Roles,
    base: usize,
    l: usize,
    r: usize,
    nodes: &mut [u32],
) -> usize
    requires { (1 ≤ r) × (base + (l + r) ≤ 4096) × HasNode nodes.old (l + r) }
    ensures { Appended (prefix_or_infix_words base l (l + r) token (precedence_of (role_between roles l r)))
        nodes.old (l + r) nodes.new result }
{
    let role = roles.between(l, r);
    if l == 0 {
        return unary(token, NodeKind::Prefix as u32, role, base, r, nodes);
    }
    infix(token, role, base, l, r, nodes)
}

// The node of a bracket pair behind the `n` nodes of its inside.
pub fn bracket(base: usize, n: usize, nodes: &mut [u32]) -> usize
    requires { EndsInChild (base + n) × HasNode nodes.old n }
    ensures { Appended (node_words bracket_kind (base + n - 1) 0 0 0 0) nodes.old n nodes.new result }
{
    let pair = Node {
        kind: NodeKind::Bracket as u32,
        first: last(base + n),
        second: 0,
        offset: 0,
        size: 0,
        precedence: 0,
    };
    pair.write(nodes, n);
    n + 1
}

// The node of the block with these tokens `let` and `in`, behind the `n` nodes of its body.
pub fn block(let_token: Token, in_token: Token, base: usize, n: usize, nodes: &mut [u32]) -> usize
    requires { (let_token.start ≤ in_token.start) × EndsInChild (base + n) × HasNode nodes.old n }
    ensures { Appended (block_words (base + n - 1) let_token in_token) nodes.old n nodes.new result }
{
    let body = last(base + n);
    let start = u32::from(let_token.start);
    let end = u32::from(in_token.start) + IN_SIZE;
    let block = Node {
        kind: NodeKind::Block as u32,
        first: body,
        second: 0,
        offset: start,
        size: end - start,
        precedence: 0,
    };
    block.write(nodes, n);
    n + 1
}
