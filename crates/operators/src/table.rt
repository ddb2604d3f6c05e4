// The operators in force, by value: an entry to an operator, and hints where a name stands.
ghost use Rattle.std.specs.Prelude.{◌≡◌, ℕ, ◌<◌, ◌≤◌};
ghost use Rattle.grammar.specs.Declaration.{most_operators};
ghost use Rattle.grammar.specs.Bytes.{Bytes, same};
ghost use Rattle.std.specs.List.{list_all};
ghost use Rattle.grammar.specs.Operator.{lawful, is_apart, every_operator, permitted};
ghost use Rattle.rows.specs.InUse.{roles_by};
ghost use Rattle.starting_operators.specs.Starting.{found_number};
ghost use Rattle.operators.specs.Entries.{name_in, Stands, coded_find, table_of, hash_of, Sound, Puttable, PutsStart, Starting, IsName, Quickly};
ghost use Rattle.operators.specs.Entries.{with_role, Declarable, Declared, Clearable, Cleared};

use crate::conditions;
use rows::fixity::Fixity;
use rows::role::Role;
use rows::roles::Roles;
use starting_operators::number;

pub const MAX_OPERATORS: usize = 64;

// How many numbers there are for `hash`.
const HASHES: usize = 128;

// From this offset on a name is that of a starting operator, by its number: one word for the place of a name, wherever its bytes are. Memory
// is fixed, and a table is copied at each block: an enum or a reference in its place would make every entry larger.
const NAMES: usize = 16384;

// An operator: where its name begins and how many bytes it has, and its roles.
#[derive(Clone, Copy)]
pub struct Entry {
    pub start: u16,
    pub size: u16,
    pub roles: Roles,
}

// The operators are the first `count` entries: a table has a fixed size, as there is no heap. The latest operator whose name has a hash
// stands in `hints`, one more than its entry; 0 where there never was one: one byte for a hint, since a table is copied at each block.
#[derive(Clone, Copy)]
pub struct Table {
    pub entries: [Entry; MAX_OPERATORS],
    pub hints: [u8; HASHES],
    pub count: usize,
}

// What can be said of a name before it is compared with the names that were declared: three answers, so no `Option`.
#[derive(Clone, Copy)]
pub enum Quick {
    At { entry: usize },
    Nothing,
    Unknown,
}

// A number below `HASHES` from the last two bytes of a name: what is left of them by a division, but nothing here divides.
pub fn hash(name: &[u8]) -> usize
    requires { IsName name.now }
    ensures { (result ≡ hash_of name.now) × (result < 128) }
{
    let n = name.len();
    let mut h = name[n - 1] as usize;
    if 1 < n {
        h += (name[n - 2] as usize) * 10;
    }
    h & (HASHES - 1)
}

// Whether the name at an offset of the text, or of the starting operator with a number, is `name`, which has the number `number` among these.
pub fn is_named(text: &[u8], start: usize, size: usize, name: &[u8], number: Option<usize>) -> bool
    requires { Stands text.now start size × (number ≡ found_number name.now) }
    ensures { result ≡ same name.now (name_in text.now start size) }
{
    if name.len() != size {
        return false;
    }
    if start < NAMES {
        return byte_strings::equal(name, &text[start..start + size]);
    }
    number == Some(start - NAMES)
}

impl Entry {
    pub const NONE: Entry = Entry {
        start: 0,
        size: 0,
        roles: Roles::NONE,
    };

    // Whether the name at its place in the text, or of the starting operator with its number, is `name`, which has the number `number` among
    // these.
    pub fn is_named(self, text: &[u8], name: &[u8], number: Option<usize>) -> bool
        requires { Stands text.now self.start self.size × (number ≡ found_number name.now) }
        ensures { result ≡ same name.now (name_in text.now self.start self.size) }
    {
        is_named(text, self.start as usize, self.size as usize, name, number)
    }
}

impl Table {
    // The starting operators.
    pub fn new() -> Table
        ensures { Starting result }
    {
        let mut table = Table {
            entries: [Entry::NONE; MAX_OPERATORS],
            hints: [0; HASHES],
            count: number::COUNT,
        };
        for k in 0..number::COUNT {
            table.put(k);
        }
        table
    }

    // The entry of the starting operator with a number, where nothing stands yet, and the hint for its hash.
    #[tactic(auto, using(starting_operators::proofs::Numbers::start_few))]
    fn put(&mut self, number: usize)
        requires { Puttable self.old number }
        ensures { PutsStart self.old number self.new }
    {
        let operator = number::operator(number);
        self.entries[number] = Entry {
            start: (NAMES + number) as u16,
            size: operator.name.len() as u16,
            roles: operator.roles,
        };
        self.hints[hash(operator.name)] = (number + 1) as u8;
    }

    // What can be said of a name at once.
    pub fn find_quickly(&self, name: &[u8]) -> Quick
        requires { ((text : Bytes) × Sound text self.now) × IsName name.now }
        ensures { (text : Bytes) → Sound text self.now → Quickly (coded_find text self.now.entries name.now 0 self.now.count) result }
    {
        // A starting operator has its number as its entry, if none before it was removed.
        if let Some(entry) = number::number(name) {
            if entry < self.count {
                if self.entries[entry].start as usize == NAMES + entry {
                    return Quick::At { entry };
                }
            }
        }
        if self.hints[hash(name)] == 0 {
            return Quick::Nothing;
        }
        Quick::Unknown
    }

    // The entry that has the name: the one that the hint for its hash gives, or another.
    pub fn find(&self, text: &[u8], name: &[u8]) -> Option<usize>
        requires { Sound text.now self.now × IsName name.now }
        ensures { result ≡ coded_find text.now self.now.entries name.now 0 self.now.count }
    {
        let hint = self.hints[hash(name)] as usize;
        if hint == 0 {
            return None;
        }
        let number = number::number(name);
        if hint <= self.count {
            let entry = hint - 1;
            if self.entries[entry].is_named(text, name, number) {
                return Some(entry);
            }
        }
        for i in 0..self.count {
            if self.entries[i].is_named(text, name, number) {
                return Some(i);
            }
        }
        None
    }

    // A declared role replaces the operator's former role of that fixity. `found` says where the table has the name.
    pub fn declare(
        mut self,
        found: Option<usize>,
        start: usize,
        size: usize,
        hash: usize,
        fixity: Fixity,
        role: Role,
    ) -> Table
        requires { (text : Bytes) × Declarable text self found start size hash fixity role }
        ensures { (text : Bytes) → Declarable text self found start size hash fixity role → Declared text self start size fixity role result }
    {
        let count = self.count;
        let entry = match found {
            Some(entry) => entry,
            None => {
                self.entries[count] = Entry {
                    start: start as u16,
                    size: size as u16,
                    roles: Roles::NONE,
                };
                self.count = count + 1;
                self.hints[hash] = (count + 1) as u8;
                count
            }
        };
        self.entries[entry].roles = with_role(self.entries[entry].roles, fixity, role);
        self
    }

    // All roles of a name are removed, where the table has it: the entries behind it move one place down.
    pub fn clear(mut self, found: Option<usize>) -> Table
        requires { (text name : Bytes) × Clearable text self found name }
        ensures { (text name : Bytes) → Clearable text self found name → Cleared text self name result }
    {
        if let Some(entry) = found {
            let last = self.count - 1;
            // `copy_within` would say the same, but the archive would need `memmove`, and its header names `memcpy` and `memset` alone.
            for k in entry..last {
                self.entries[k] = self.entries[k + 1];
            }
            self.count = last;
        }
        self
    }

    // The four conditions of all operators.
    pub fn all_lawful(&self) -> bool
        requires { self.now.count ≤ most_operators }
        ensures { (text : Bytes) → result ≡ every_operator lawful (table_of text self.now) }
    {
        are_lawful(&self.entries[..self.count])
    }

    // The overloading rule: where an operator has both an infix and a postfix role, the four conditions of all.
    pub fn is_permitted(&self) -> bool
        requires { self.now.count ≤ most_operators }
        ensures { (text : Bytes) → result ≡ permitted (table_of text self.now) }
    {
        are_apart(&self.entries[..self.count]) || self.all_lawful()
    }
}

// Roles with one in the place of the former one of its fixity.
fn with_role(mut roles: Roles, fixity: Fixity, role: Role) -> Roles
    ensures { result ≡ with_role fixity role roles }
{
    match fixity {
        Fixity::Infix => roles.infix = role,
        Fixity::Prefix => roles.prefix = role,
        Fixity::Postfix => roles.postfix = role,
    }
    roles
}

// The four conditions of some operators, and whether none of them has both an infix and a postfix role.
fn are_lawful(operators: &[Entry]) -> bool
    ensures { result ≡ list_all (λ e. lawful (roles_by e.roles)) operators.now }
{
    operators.iter().all(|e| conditions::is_lawful(e.roles))
}

fn are_apart(operators: &[Entry]) -> bool
    ensures { result ≡ list_all (λ e. is_apart (roles_by e.roles)) operators.now }
{
    operators.iter().all(|e| conditions::is_apart(e.roles.infix.code, e.roles.postfix.code))
}
