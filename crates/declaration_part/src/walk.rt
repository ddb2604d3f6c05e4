// A declaration part is walked token by token: a struct holds the text and the place of the current token, and moves by calling functions of
// the scanner on slice and number.
ghost use Rattle.std.specs.Prelude.{◌≡◌};
ghost use Rattle.declaration_part.specs.Walking.{Next, Walked};

use scanner::runs;

// Where a token begins and ends.
#[derive(Clone, Copy)]
pub struct Span {
    pub start: usize,
    pub end: usize,
}

#[derive(Clone, Copy)]
pub struct Walk<'a> {
    pub text: &'a [u8],
    pub token: Span,
}

impl<'a> Walk<'a> {
    pub fn new(text: &'a [u8], token: Span) -> Walk<'a>
        ensures { (result.text ≡ text.entry) × (result.token ≡ token) }
    {
        Walk { text, token }
    }

    // The reader at the next token, an empty one behind the text: it never ends, so `Walk` is no `Iterator`.
    pub fn next(self) -> Walk<'a>
        ensures { (result.text ≡ self.entry.text) × Next self.entry.text.now self.entry.token result.token }
    {
        let start = runs::blanks_end(self.text, self.token.end);
        let end = runs::token_end(self.text, start);
        Walk::new(self.text, Span { start, end })
    }
}

// The places of the four tokens behind a `let` or a `;`.
#[derive(Clone, Copy)]
pub struct Places {
    pub first: Span,
    pub second: Span,
    pub third: Span,
    pub fourth: Span,
}

// The places of the tokens of a declaration, whose `let` or `;` is the first token from `at` on.
pub fn find_places(text: &[u8], at: usize) -> Places
    ensures { Walked text.now at result }
{
    let opener = Walk::new(text, Span { start: at, end: at }).next();
    let first = opener.next();
    let second = first.next();
    let third = second.next();
    let fourth = third.next();
    Places {
        first: first.token,
        second: second.token,
        third: third.token,
        fourth: fourth.token,
    }
}
