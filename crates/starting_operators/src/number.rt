// The starting operators by number, in the order of document 01.
ghost use Rattle.std.specs.Prelude.{◌≡◌};
ghost use Rattle.starting_operators.specs.Starting.{found_number, IsOperator, HasRoles};

use rows::fixity::Associativity::{Left, Non, Right};
use rows::role::Role;
use rows::roles::Roles;

// How many there are.
pub const COUNT: usize = 8;

// A starting operator: its name, and its roles, of which none is postfix.
#[derive(Clone, Copy)]
pub struct StartingOperator {
    pub name: &'static [u8],
    pub roles: Roles,
}

// A line of the table below.
fn of(name: &'static [u8], prefix: Role, infix: Role) -> StartingOperator
    ensures { (result.name.now ≡ name.now) × (result.roles.prefix.code ≡ prefix.code)
        × (result.roles.«infix».code ≡ «infix».code) × (result.roles.postfix.code ≡ 0) }
{
    StartingOperator {
        name,
        roles: Roles {
            prefix,
            infix,
            postfix: Role::NONE,
        },
    }
}

// The operator with a number, a line for each: its name, its prefix and its infix role.
pub fn operator(number: usize) -> StartingOperator
    ensures { IsOperator number result }
{
    match number {
        0 => of(b"or", Role::NONE, Role::new(Left, 800)),
        1 => of(b"and", Role::NONE, Role::new(Left, 700)),
        2 => of(b"not", Role::new(Right, 600), Role::NONE),
        3 => of(b"=", Role::NONE, Role::new(Non, 500)),
        4 => of(b"<", Role::NONE, Role::new(Non, 500)),
        5 => of(b"+", Role::NONE, Role::new(Left, 400)),
        6 => of(b"-", Role::new(Non, 400), Role::new(Left, 400)),
        7 => of(b"*", Role::NONE, Role::new(Left, 300)),
        _ => of(b"", Role::NONE, Role::NONE),
    }
}

// The number of the operator that has the name. It is asked of every word and sign, so it is compiled into its callers, and the length of a
// name is told first, so that a name is compared only with those of its length.
#[inline(always)]
#[tactic(auto, using(byte_strings::proofs::Equality::same_reads, std::proofs::lemmas::Bool::Decides::nat_tests, crate::proofs::NameSearch::found_search), unfolding(crate::proofs::NameSearch::number_at, grammar::specs::Declaration::start_table, grammar::specs::Declaration::start_declarations, grammar::specs::Declaration::declare_all, grammar::specs::Declaration::declare, grammar::specs::Operator::declare_role))]
pub fn number(name: &[u8]) -> Option<usize>
    ensures { result ≡ found_number name.now }
{
    match name.len() {
        1 => match name {
            b"=" => Some(3),
            b"<" => Some(4),
            b"+" => Some(5),
            b"-" => Some(6),
            b"*" => Some(7),
            _ => None,
        },
        2 => match name {
            b"or" => Some(0),
            _ => None,
        },
        3 => match name {
            b"and" => Some(1),
            b"not" => Some(2),
            _ => None,
        },
        _ => None,
    }
}

// The roles of the operator with a number.
pub fn roles(number: usize) -> Roles
    ensures { HasRoles number result }
{
    operator(number).roles
}
