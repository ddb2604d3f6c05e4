// The classes of bytes, and the token rules of document 01 that give each byte its class.
#![tactic(auto)]

ghost use Rattle.std.specs.Prelude.{◌≡◌};
ghost use Rattle.grammar.specs.Token.{class as class_of};
ghost use Rattle.byte_classes.specs.Classes.{class_code};

use classes::Class;

pub mod classes;

// The class of a byte, by the rule. The table that the scanner looks it up in is what the program `class_table` prints of this function.
pub fn class(b: u8) -> Class
    ensures { class_code result ≡ class_of b }
{
    match b {
        b'\t' | b'\n' | b'\r' | b' ' => Class::Blank,
        b'A'..=b'Z' | b'a'..=b'z' => Class::Letter,
        b'0'..=b'9' => Class::Digit,
        b'_' => Class::Underscore,
        b'!' | b'*' | b'+' | b'-' | b'/' | b':' | b'^' | b'|' | b'~' => Class::Sign,
        b'#'..=b'&' | b'<'..=b'@' => Class::Sign,
        b'\'' => Class::Quote,
        b'(' => Class::Opening,
        b')' => Class::Closing,
        b';' => Class::Semicolon,
        _ => Class::Other,
    }
}
