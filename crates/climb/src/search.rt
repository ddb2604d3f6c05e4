// The root of a span and of each part of it, in one pass from the left: an operator that has no right operand yet waits, and what comes
// decides whether it gives way. Its role is the one that it has by what stands beside it.
ghost use Rattle.std.specs.Prelude.{◌≡◌, ◌<◌};
ghost use Rattle.grammar.specs.Bytes.{Bytes};
ghost use Rattle.grammar.specs.Operator.{Table};
ghost use Rattle.rows.specs.Fields.{Within, kind, closer};
ghost use Rattle.climb.specs.Beside.{item_end, arrives_at};
ghost use Rattle.climb.specs.Searched.{Rows, InForce, Searched};

use rows::fixity::Position;
use rows::operands::Operands;
use rows::role::{LAST, Role};
use rows::roles::Note;
use rows::token::{Kind, Token};

// The token behind the item that begins at token `i`.
#[tactic(auto, unfolding(crate::specs::Beside::item_end))]
pub fn item_end(tokens: &[Token], i: usize) -> usize
    requires { Within tokens.now i × (3 < kind tokens.now i → Within tokens.now (closer tokens.now i)) }
    ensures { result ≡ item_end tokens.now i }
{
    let kind = tokens[i].kind;
    if kind.is_atom() {
        return i + 1;
    }
    let closer = tokens[i].closer as usize;
    if kind == Kind::Opening {
        return closer + 1;
    }
    tokens[closer].closer as usize + 1
}

// Whether the operator at token `i` may come: behind an operand, whose root has the role `inner`, by its infix role, else its postfix one; or
// behind none (`left` is 0) by its prefix role, which the role `taking` of the operator that waits must admit on its right.
fn arrives(notes: &[Note], i: usize, left: usize, inner: Role, taking: Role) -> bool
    requires { Within notes.now i }
    ensures { result ≡ arrives_at notes.now i left inner.code taking.code }
{
    let roles = notes[i].roles;
    if left == 0 {
        if roles.prefix.is_none() {
            return false;
        }
        if taking.is_none() {
            return false;
        }
        return taking.admits(Position::OnRight, roles.prefix);
    }
    if !roles.infix.is_none() {
        return roles.infix.admits(Position::OnLeft, inner);
    }
    if roles.postfix.is_none() {
        return false;
    }
    roles.postfix.admits(Position::OnLeft, inner)
}

// No tree: the first item with which none begins, `to` where something is missing at the end of the span.
#[derive(Clone, Copy)]
pub struct Lost {
    pub at: usize,
}

// The root of the tokens from `from` to `to`, and of each part of them in `roots`. `waiting` and `operand` are one more than a token,
// 0: none, as the row has them, so that links are copied as they stand; those that wait are linked by the right field, the innermost first.
// `taking` is the role in which the innermost of them takes an operand on its right, none where it takes none; `inner` is the role of the
// operand's root, none where that is no operator. What comes is tested as it comes, so nothing is tested when an operator closes. The index
// `i` steps over whole items, and one step more is taken at `to`, so the loop is no `for`.
pub fn root(
    tokens: &[Token],
    notes: &[Note],
    from: usize,
    to: usize,
    roots: &mut [Operands],
) -> Result<usize, Lost>
    requires { Rows tokens.now notes.now roots.old to × ((text : Bytes) × (T : Table) × InForce text T tokens.now notes.now from to) }
    ensures { Searched tokens.now notes.now from to roots.old roots.new result }
{
    let mut waiting: usize = 0;
    let mut operand: usize = 0;
    let mut taking = Role::ANY;
    let mut i = from;
    'span: loop {
        let arrival = if i < to { notes[i].arrival } else { LAST };
        if arrival == 0 {
            if operand != 0 {
                break 'span Err(Lost { at: i });
            }
            if taking.is_none() {
                break 'span Err(Lost { at: i });
            }
            roots[i] = Operands::NONE;
            operand = i + 1;
            i = item_end(tokens, i);
        } else {
            let mut inner = Role::NONE;
            let left = loop {
                if waiting == 0 {
                    break operand;
                }
                let t = waiting - 1;
                let own = roots[t].left as usize;
                let role = notes[t].roles.between(own, operand);
                if !role.gives_way(arrival) {
                    break operand;
                }
                let next = roots[t].right as usize;
                roots[t].right = operand as u16;
                operand = waiting;
                inner = role;
                waiting = next;
            };
            if to <= i {
                if waiting != 0 {
                    break 'span Err(Lost { at: i });
                }
                if left == 0 {
                    break 'span Err(Lost { at: i });
                }
                break 'span Ok(left - 1);
            }
            if !arrives(notes, i, left, inner, taking) {
                break 'span Err(Lost { at: i });
            }
            taking = notes[i].roles.between(left, 1);
            roots[i] = Operands {
                left: left as u16,
                right: waiting as u16,
            };
            i += 1;
            waiting = i;
            operand = 0;
        }
    }
}
