// Runs of bytes of a class, where tokens end, and the characters of a quoted name.
ghost use Rattle.std.specs.Prelude.{◌≡◌, ◌+◌, drop, get_or};
ghost use Rattle.grammar.specs.Token.{in_word, is_quote};
ghost use Rattle.grammar.specs.Scan.{run};
ghost use Rattle.scanner.specs.Classes.{in_class};
ghost use Rattle.scanner.specs.Scanning.{first_size};
ghost use Rattle.scanner.specs.Places.{token_end, blanks_end};

use crate::classes;
use byte_classes::classes::Class;

// Whether a byte is of the class with a number, any number.
fn is_in(class: u8, b: u8) -> bool
    ensures { result ≡ in_class class b }
{
    classes::class(b) as u8 == class
}

fn is_in_word(b: u8) -> bool
    ensures { result ≡ in_word b }
{
    matches!(
        classes::class(b),
        Class::Letter | Class::Digit | Class::Underscore
    )
}

// Where the bytes of a class, by its number, from `at` on end. (Tried: a chain with `take_while` and `count` costs five to seven instructions
// more for each token, here and in `word_end`.)
pub fn run_end(text: &[u8], at: usize, class: u8) -> usize
    ensures { result ≡ at + run (in_class class) (drop at text.now) }
{
    for i in at..text.len() {
        if !is_in(class, text[i]) {
            return i;
        }
    }
    at.max(text.len())
}

// Where the letters, digits and underscores from `at` on end. They are of three classes, so this is no call of `run_end`, and a test that is
// handed on would be no shorter.
pub fn word_end(text: &[u8], at: usize) -> usize
    ensures { result ≡ at + run in_word (drop at text.now) }
{
    for i in at..text.len() {
        if !is_in_word(text[i]) {
            return i;
        }
    }
    at.max(text.len())
}

// Where the blanks from `at` on end.
pub fn blanks_end(text: &[u8], at: usize) -> usize
    ensures { result ≡ blanks_end text.now at }
{
    run_end(text, at, Class::Blank as u8)
}

// Where the token that begins at `at` ends, if it is no quoted name. Behind the text `at` itself.
pub fn token_end(text: &[u8], at: usize) -> usize
    ensures { result ≡ token_end text.now at }
{
    if text.len() <= at {
        return at;
    }
    match classes::class(text[at]) {
        Class::Letter => word_end(text, at + 1),
        Class::Digit => run_end(text, at + 1, Class::Digit as u8),
        Class::Sign => run_end(text, at + 1, Class::Sign as u8),
        _ => at + 1,
    }
}

// Whether a quote stands at `at`. Behind the text stands none.
pub fn is_quote(text: &[u8], at: usize) -> bool
    ensures { result ≡ is_quote (get_or text.now at 0) }
{
    match text.get(at) {
        Some(b) => classes::class(*b) == Class::Quote,
        None => false,
    }
}

// Where the character of a quoted name at `at` ends: behind a pair of quotes, or behind another byte from 32 to 126. `at` itself where
// none stands.
pub fn character_end(text: &[u8], at: usize) -> usize
    ensures { result ≡ at + first_size (drop at text.now) }
{
    match text.get(at) {
        Some(_) if is_quote(text, at) => { if is_quote(text, at + 1) { at + 2 } else { at } }
        Some(b' '..=b'~') => at + 1,
        _ => at,
    }
}
