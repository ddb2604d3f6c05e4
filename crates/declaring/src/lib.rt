// The declarations of a part one after another, and the operators in force behind them: refusals 8, 17 and 9.
#![tactic(auto)]

ghost use Rattle.std.specs.Prelude.{◌≡◌};
ghost use Rattle.grammar.specs.Declaration.{is_reserved};
ghost use Rattle.operators.specs.Entries.{table_of, Sound};
ghost use Rattle.declaring.specs.Declaring.{is_full, RefusedIf, PartAt, part_of, Declares};

use declaration_part::parse;
use declaration_part::parse::Declaration;
use operators::table;
use operators::table::Table;
use refusals::{Refusal, Refused};
use rows::token::Token;
use starting_operators::reserved;

// Whether there is no room for a name that was looked for.
fn is_full(count: usize, found: Option<usize>) -> bool
    ensures { result ≡ is_full count found }
{
    found.is_none() && table::MAX_OPERATORS <= count
}

// A reserved operator, with its name at token `at`, is refused.
fn check_reserved(name: &[u8], at: usize) -> Result<(), Refused>
    ensures { RefusedIf (is_reserved name.now) 17 at result }
{
    if reserved::is_reserved(name) {
        return Err(Refused {
            refusal: Refusal::ReservedOperator,
            at,
        });
    }
    Ok(())
}

// An operator for which there is no room, with its name at token `at`, is refused.
fn check_room(count: usize, found: Option<usize>, at: usize) -> Result<(), Refused>
    ensures { RefusedIf (is_full count found) 9 at result }
{
    if is_full(count, found) {
        return Err(Refused {
            refusal: Refusal::TooManyOperators,
            at,
        });
    }
    Ok(())
}

// The declarations between the `let` at token `from` and the `in` at token `to` change the operators of a table. A refusal changes none.
// Answers whether an operator that was listed got a role.
pub fn declare_all(
    text: &[u8],
    tokens: &[Token],
    from: usize,
    to: usize,
    table: &mut Table,
) -> Result<bool, Refused>
    requires { PartAt text.now tokens.now from to × Sound text.now table.old }
    ensures { Declares text.now table.old
        (part_of text.now tokens.now from to (table_of text.now table.old)) table.new result }
{
    let mut inner = *table;
    let mut replaced = false;
    let mut before = tokens[from].start as usize;
    let mut at = from + 1;
    // A declaration has three or five tokens, so this is no `for`.
    while at < to {
        match parse::declaration_at(text, tokens, at, to, before) {
            Err(at) => {
                return Err(Refused {
                    refusal: Refusal::MalformedDeclaration,
                    at,
                });
            }
            Ok(
                Declaration::Role {
                    fixity,
                    role,
                    operator,
                },
            ) => {
                let name = &text[operator.start..operator.end];
                check_reserved(name, at + 3)?;
                let found = inner.find(text, name);
                check_room(inner.count, found, at + 3)?;
                if found.is_some() {
                    replaced = true;
                }
                inner = inner.declare(
                    found,
                    operator.start,
                    operator.end - operator.start,
                    table::hash(name),
                    fixity,
                    role,
                );
                before = operator.end;
                at += 5;
            }
            Ok(Declaration::Clears { operator }) => {
                let cleared = &text[operator.start..operator.end];
                check_reserved(cleared, at + 1)?;
                let found = inner.find(text, cleared);
                inner = inner.clear(found);
                before = operator.end;
                at += 3;
            }
        }
    }
    *table = inner;
    Ok(replaced)
}
