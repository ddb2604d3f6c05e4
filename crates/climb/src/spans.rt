// Every span has a tree, or the first that has none.
ghost use Rattle.std.specs.Prelude.{◌≡◌};
ghost use Rattle.grammar.specs.Bytes.{Bytes};
ghost use Rattle.grammar.specs.Operator.{Table};
ghost use Rattle.rows.specs.Kinds.{kind_code};
ghost use Rattle.climb.specs.Beside.{opens_span};
ghost use Rattle.climb.specs.Searched.{Rows, InForce, Checked, Flat};

use crate::search;
use crate::search::Lost;
use rows::operands::Operands;
use rows::roles::Note;
use rows::token::{Kind, Token};

// The number of nodes and the root of the whole text.
#[derive(Clone, Copy)]
pub struct Trees {
    pub nodes: usize,
    pub root: usize,
}

// No tree of the span behind the token `opener`, of the whole text where there is none, and the token at which it is lost.
#[derive(Clone, Copy)]
pub struct Treeless {
    pub opener: Option<usize>,
    pub lost: usize,
}

// Whether a token of the kind opens a span.
#[tactic(auto, unfolding(crate::specs::Beside::opens_span))]
pub fn opens_span(kind: Kind) -> bool
    ensures { result ≡ opens_span (kind_code kind) }
{
    matches!(kind, Kind::Opening | Kind::In)
}

// The spans of `count` tokens, the whole text first, then those behind each opener; `from` is one more than the opener, 0 for the whole text,
// so an `Option` of the opener beside it would say the same twice. There is one call of the search, so that it is compiled into this loop.
// The nodes are one for each token but closers, `in` and declarations. Declarations are stepped over, and one loop goes on where the other
// stops, so neither is a `for`.
pub fn check(
    tokens: &[Token],
    notes: &[Note],
    count: usize,
    nested: bool,
    roots: &mut [Operands],
) -> Result<Trees, Treeless>
    requires { Rows tokens.now notes.now roots.old count × Flat tokens.now count nested × ((text : Bytes) × (T : Table) × InForce text T tokens.now notes.now 0 count) }
    ensures { Checked tokens.now notes.now count roots.old roots.new result }
{
    let mut whole: usize = 0;
    let mut nodes = count;
    let mut from: usize = 0;
    let mut to = count;
    'spans: loop {
        match search::root(tokens, notes, from, to, roots) {
            Ok(at) => {
                if from == 0 {
                    whole = at;
                } else {
                    roots[from - 1].left = (at + 1) as u16;
                    nodes -= 1;
                }
            }
            Err(Lost { at }) => {
                let opener = if from == 0 { None } else { Some(from - 1) };
                break 'spans Err(Treeless { opener, lost: at });
            }
        }
        if !nested {
            break 'spans Ok(Trees { nodes, root: whole });
        }
        let mut i = from;
        let opener = loop {
            if count <= i {
                break 'spans Ok(Trees { nodes, root: whole });
            }
            let kind = tokens[i].kind;
            if opens_span(kind) {
                break i;
            }
            if kind == Kind::Let {
                let body = tokens[i].closer as usize;
                nodes -= body - i;
                i = body;
            } else {
                i += 1;
            }
        };
        to = tokens[opener].closer as usize;
        from = opener + 1;
    }
}
