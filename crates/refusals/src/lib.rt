// The ways in which a text is refused, by the rows of document 01's table and row 17 of document 02, §9.
#![tactic(auto)]

ghost use Rattle.std.specs.Prelude.{◌≡◌};
ghost use Rattle.refusals.specs.Numbers.{number_of};

// A refusal, with its number.
#[derive(Clone, Copy, PartialEq, Eq)]
pub enum Refusal {
    TextTooLong = 1,
    NoToken = 2,
    BadQuotedName = 3,
    TokenTooLong = 4,
    TooManyTokens = 5,
    Unpaired = 6,
    TooDeep = 7,
    MalformedDeclaration = 8,
    TooManyOperators = 9,
    NotPermitted = 10,
    NoTree = 11,
    TableTooShort = 12,
    BufferTooShort = 13,
    ReservedOperator = 17,
}

impl Refusal {
    pub fn number(self) -> u8
        ensures { result ≡ number_of self }
    {
        self as u8
    }
}

// A refusal and its place: the number of a token, or the offset of a byte.
#[derive(Clone, Copy)]
pub struct Refused {
    pub refusal: Refusal,
    pub at: usize,
}
