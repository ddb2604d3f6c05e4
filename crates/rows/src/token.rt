// A token as the row of tokens has it. Written by the scan, the closers by pairing.
ghost use Rattle.std.specs.Prelude.{◌≡◌, ◌+◌, ◌≤◌, leb, length, take, drop};
ghost use Rattle.rows.specs.Kinds.{kind_code, first_byte_of};

// The kinds of tokens. Up to a quoted name they are atoms, behind it structure.
#[derive(Clone, Copy, PartialEq, Eq)]
pub enum Kind {
    Symbol,
    Number,
    Quoted,
    Opening,
    Closing,
    Semicolon,
    Let,
    In,
    End,
}

impl Kind {
    pub fn is_atom(self) -> bool
        ensures { result ≡ leb (kind_code self) 3 }
    {
        matches!(self, Kind::Symbol | Kind::Number | Kind::Quoted)
    }
}

// What a token is, where its bytes begin and how many they are (a quoted name's as written, without the outer quotes), and which token
// closes it: of `(` its `)`, of `let` its `in`, of `in` its `end`.
#[derive(Clone, Copy)]
pub struct Token {
    pub kind: Kind,
    pub start: u16,
    pub size: u16,
    pub closer: u16,
}

impl Token {
    // What stands in a row where no token was stored yet.
    pub const BLANK: Token = Token {
        kind: Kind::Symbol,
        start: 0,
        size: 0,
        closer: 0,
    };

    // Where its first byte stands: of a quoted name its quote.
    #[tactic(auto, unfolding(crate::specs::Kinds::first_byte_of))]
    pub fn offset(self) -> usize
        requires { kind_code self.kind ≡ 3 → 1 ≤ self.start }
        ensures { result ≡ first_byte_of self }
    {
        let start = self.start as usize;
        if self.kind == Kind::Quoted {
            return start - 1;
        }
        start
    }

    // Its bytes, as written in the text.
    pub fn written(self, text: &[u8]) -> &[u8]
        requires { self.start + self.size ≤ length text.now }
        ensures { result.now ≡ take self.size (drop self.start text.now) }
    {
        let start = self.start as usize;
        let end = start + self.size as usize;
        &text[start..end]
    }
}
