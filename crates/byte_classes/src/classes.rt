// The classes of bytes.
ghost use Rattle.std.specs.Prelude.{Some};
ghost use Rattle.byte_classes.specs.Classes.{class_word};

use std::fmt;

#[derive(Clone, Copy, PartialEq, Eq)]
pub enum Class {
    Blank,
    Letter,
    Digit,
    Underscore,
    Sign,
    Quote,
    Opening,
    Closing,
    Semicolon,
    Other,
}

// A class is written as the name of its number in the scanner's table.
impl fmt::Display for Class {
    ghost output = { λ class. Some (class_word class) };

    fn fmt<W: fmt::Write>(&self, f: &mut fmt::Formatter<W>) -> fmt::Result {
        f.write_str(match self {
            Class::Blank => "BLANK",
            Class::Letter => "LETTER",
            Class::Digit => "DIGIT",
            Class::Underscore => "UNDERSCORE",
            Class::Sign => "SIGN",
            Class::Quote => "QUOTE",
            Class::Opening => "OPENING",
            Class::Closing => "CLOSING",
            Class::Semicolon => "SEMICOLON",
            Class::Other => "OTHER",
        })
    }
}
