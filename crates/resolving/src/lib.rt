// The roles in force of each token: document 01's "A word or sign without a role in force is a name", and refusals 8 to 10 and 17 over all
// blocks.
#![tactic(auto)]

ghost use Rattle.std.specs.Prelude.{◌≡◌, false, ℕ, ◌<◌};
ghost use Rattle.grammar.specs.Bytes.{Bytes};
ghost use Rattle.grammar.specs.Declaration.{start_table};
ghost use Rattle.rows.specs.Fields.{NoteRow, Within};
ghost use Rattle.rows.specs.Tokens.{Unblocked};
ghost use Rattle.rows.specs.Agreeing.{NameNoted};
ghost use Rattle.operators.specs.Entries.{table_of, Sound, IsName};
ghost use Rattle.declaring.specs.Declaring.{PartAt};
ghost use Rattle.resolving.specs.Resolving.{block_entered, Enters, coded_class, Ranged, PermittedTable, OperatorNoted, Unfound, Notes, Resolving};

use operators::table::{Quick, Table};
use refusals::{Refusal, Refused};
use rows::class::Class;
use rows::roles::Note;
use rows::token::{Kind, Token};
use starting_operators::notes;

// The class of the first token of an item, under the operators of a table.
pub fn classify(text: &[u8], tokens: &[Token], i: usize, table: &Table) -> Class
    requires { ((to : ℕ) × (R : NoteRow) × Ranged text.now tokens.now R i to × (i < to)) × Sound text.now table.now }
    ensures { result ≡ coded_class text.now tokens.now i table.now }
{
    let token = tokens[i];
    let name = Class::Name {
        start: token.start as usize,
        size: token.size as usize,
    };
    match token.kind {
        Kind::Opening => Class::Bracket {
            closer: token.closer as usize,
        },
        Kind::Let => Class::Block {
            closer: tokens[token.closer as usize].closer as usize,
        },
        Kind::Number => Class::Number,
        Kind::Symbol => {
            let written = token.written(text);
            match table.find_quickly(written) {
                Quick::At { entry } => Class::Operator { entry },
                Quick::Nothing => name,
                Quick::Unknown => match table.find(text, written) {
                    Some(entry) => Class::Operator { entry },
                    None => name,
                },
            }
        }
        _ => name,
    }
}

// What is noted of an operator: the roles of its entry, and their arrival.
fn store_operator(notes: &mut [Note], i: usize, table: &Table, entry: usize)
    requires { Within notes.old i × ((text : Bytes) × Sound text table.now × (entry < table.now.count)) }
    ensures { OperatorNoted table.now entry notes.old i notes.new }
{
    let roles = table.entries[entry].roles;
    notes[i] = Note {
        roles,
        arrival: roles.arrival(),
    };
}

// What is noted of a name: nothing, or, if it is quoted, the roles that its bytes as written have.
fn store_name(text: &[u8], name: &[u8], table: &Table, quoted: bool, i: usize, notes: &mut [Note])
    requires { Within notes.old i × Sound text.now table.now × IsName name.now }
    ensures { NameNoted quoted (Unfound text.now table.now) (table_of text.now table.now) name.now notes.old i notes.new }
{
    if quoted {
        if let Some(entry) = table.find(text, name) {
            notes[i] = Note {
                roles: table.entries[entry].roles,
                arrival: 0,
            };
            return;
        }
    }
    notes[i] = Note::NONE;
}

// The note of the first token of an item, under the operators of a table, and its class.
fn note(text: &[u8], tokens: &[Token], i: usize, table: &Table, notes: &mut [Note]) -> Class
    requires { ((to : ℕ) × Ranged text.now tokens.now notes.old i to × (i < to)) × Sound text.now table.now }
    ensures { (result ≡ coded_class text.now tokens.now i table.now)
        × Notes text.now tokens.now (table_of text.now table.now) notes.old i notes.new result }
{
    let class = classify(text, tokens, i, table);
    match class {
        Class::Operator { entry } => {
            store_operator(notes, i, table, entry);
        }
        Class::Name { start, size } => {
            let quoted = tokens[i].kind == Kind::Quoted;
            store_name(text, &text[start..start + size], table, quoted, i, notes);
        }
        _ => {
            notes[i] = Note::NONE;
        }
    }
    class
}

// The declarations between the `let` at token `from` and the `in` at token `to` change the operators of a table, and check 10 is asked of what
// they leave.
fn enter_block(
    text: &[u8],
    tokens: &[Token],
    from: usize,
    to: usize,
    table: &mut Table,
) -> Result<(), Refused>
    requires { PartAt text.now tokens.now from to × PermittedTable text.now table.old }
    ensures { Enters text.now (block_entered text.now tokens.now (table_of text.now table.old) from to) table.new result }
{
    let replaced = declaring::declare_all(text, tokens, from, to, table)?;
    if replaced {
        if !table.is_permitted() {
            return Err(Refused {
                refusal: Refusal::NotPermitted,
                at: to,
            });
        }
    }
    Ok(())
}

// The roles of the items from token `from` to token `to`, and inside them, under the operators of a table.
pub fn resolve(
    text: &[u8],
    tokens: &[Token],
    from: usize,
    to: usize,
    table: &Table,
    notes: &mut [Note],
) -> Result<(), Refused>
    requires { Ranged text.now tokens.now notes.old from to × PermittedTable text.now table.now }
    ensures { Resolving text.now tokens.now (table_of text.now table.now) from to notes.old notes.new result }
{
    let mut i = from;
    // A bracket pair or block is passed over as a whole, so this is no `for`.
    while i < to {
        match note(text, tokens, i, table, notes) {
            Class::Bracket { closer } => {
                resolve(text, tokens, i + 1, closer, table, notes)?;
                i = closer + 1;
            }
            Class::Block { closer } => {
                let body = tokens[i].closer as usize;
                let mut inner = *table;
                enter_block(text, tokens, i, body, &mut inner)?;
                resolve(text, tokens, body + 1, closer, &inner, notes)?;
                i = closer + 1;
            }
            _ => {
                i += 1;
            }
        }
    }
    Ok(())
}

// The roles of all items of `count` tokens, under the starting operators. Where there are no blocks, nothing else is ever in force.
pub fn resolve_text(
    text: &[u8],
    tokens: &[Token],
    count: usize,
    blocks: bool,
    notes: &mut [Note],
) -> Result<(), Refused>
    requires { Ranged text.now tokens.now notes.old 0 count × (blocks ≡ false → Unblocked tokens.now count) }
    ensures { Resolving text.now tokens.now start_table 0 count notes.old notes.new result }
{
    if !blocks {
        notes::note_all(text, tokens, count, notes);
        return Ok(());
    }
    resolve(text, tokens, 0, count, &Table::new(), notes)
}
