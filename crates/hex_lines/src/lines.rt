// A line of hexadecimal digits, taken character by character.
ghost use Rattle.std.specs.Prelude.{◌≡◌, ◌<◌, length, IfSome};
ghost use Rattle.hex_lines.specs.Hexadecimal.{digit_value, fresh, after, text_after, is_text, Sound};

// The value of a hexadecimal digit, and none of any other character.
#[tactic(auto, unfolding(crate::specs::Hexadecimal::digit_value))]
pub fn digit(b: u8) -> Option<u8>
    ensures value { result ≡ digit_value b }
    ensures upper_bound { IfSome result (λ d. d < 16) }
{
    match b {
        b'0'..=b'9' => Some(b - b'0'),
        b'A'..=b'F' => Some(b - b'A' + 10),
        b'a'..=b'f' => Some(b - b'a' + 10),
        _ => None,
    }
}

// What is known of a line: how many bytes of its text are kept, the value of a digit that waits for the second one of its byte, whether it
// has a character, and whether one of them was no digit. In this order the fields lie in two words, which stay in registers.
// The two flags are no cases of an enum: behind a character that is no digit bytes are kept as before (`after`, `text_after`), so `kept`
// and `high` have their meaning beside either value of `bad`, and a line that has begun may have nothing kept and no digit that waits.
#[derive(Clone, Copy, Default)]
pub struct Line {
    pub kept: usize,
    pub high: Option<u8>,
    pub begun: bool,
    pub bad: bool,
}

impl Line {
    // A line with no character.
    pub fn new() -> Line
        ensures { result ≡ fresh }
    {
        Line::default()
    }

    // The line with one more character, which is no line end. A whole byte is kept if there is room.
    #[tactic(auto, using(crate::proofs::Characters::full_stays), unfolding(crate::specs::Hexadecimal::after, crate::specs::Hexadecimal::text_after))]
    pub fn next(self, text: &mut [u8], b: u8) -> Line
        requires { Sound self text.old }
        ensures value { result ≡ after (length text.old) self b }
        ensures text_after { text.new ≡ text_after text.old self b }
        ensures sound { Sound result text.new }
    {
        let line = Line {
            begun: true,
            ..self
        };
        match (digit(b), self.high) {
            (None, _) => Line { bad: true, ..line },
            (Some(low), None) => Line {
                high: Some(low),
                ..line
            },
            (Some(low), Some(high)) if self.kept < text.len() => {
                text[self.kept] = high * 16 + low;
                Line {
                    kept: self.kept + 1,
                    high: None,
                    ..line
                }
            }
            (Some(_), Some(_)) => Line { high: None, ..line },
        }
    }

    // Whether a whole line gives a text: digits alone, and two to each byte.
    #[tactic(auto, unfolding(crate::specs::Hexadecimal::is_text))]
    pub fn is_text(self) -> bool
        ensures { result ≡ is_text self }
    {
        !self.bad && self.high.is_none()
    }
}
