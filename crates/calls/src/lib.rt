// A line of input as a call of a service, taken character by character: the name of the service, a space, and a text in hexadecimal, an empty one
// as `-`. The characters of the name stand at the front of the text's buffer until the space behind them, since there is no heap to keep them on.
#![tactic(auto)]

ghost use Rattle.std.specs.Prelude.{◌≡◌, ◌≤◌, length};
ghost use Rattle.calls.specs.Calls.{fresh, service_of, begun_by, named, name_after, name_text_after, after, text_after, requested, Sound};

use hex_lines::lines::Line;

// The services. The listing has no name: it is asked for by lines that have a text alone.
#[derive(Clone, Copy)]
pub enum Service {
    Listing,
    Locate,
}

impl Service {
    // The service of a name.
    #[tactic(auto, using(crate::proofs::Steps::same_pointwise), unfolding(crate::specs::Calls::service_of))]
    pub fn named(name: &[u8]) -> Option<Service>
        ensures { result ≡ service_of name.now }
    {
        if name == b"locate".as_slice() {
            return Some(Service::Locate);
        }
        None
    }
}

// How a line is written: a text alone, of which the listing is asked for, or a call by name.
#[derive(Clone, Copy)]
pub enum Format {
    Texts,
    Calls,
}

// What is known of a line: so many characters of a name; a service and a space behind its name; a service and `-`; a service and characters of
// its text; or that the line is no call.
#[derive(Clone, Copy)]
pub enum Call {
    Name { length: usize },
    Start { service: Service },
    Dash { service: Service },
    Digits { service: Service, line: Line },
    Bad,
}

// What a whole line asks for: a service of the first bytes of the buffer. It has their number and no slice, since the buffer is the caller's
// and `ended`, which makes it, asks nothing of the buffer.
#[derive(Clone, Copy)]
pub struct Request {
    pub service: Service,
    pub kept: usize,
}

// The line with one more character behind `n` characters of a name.
#[tactic(auto, using(hex_lines::proofs::Characters::full_stays), unfolding(crate::specs::Calls::name_after, crate::specs::Calls::name_text_after))]
fn next_in_name(text: &mut [u8], n: usize, b: u8) -> Call
    requires { n ≤ length text.old }
    ensures value { result ≡ name_after text.old n b }
    ensures text_after { text.new ≡ name_text_after text.old n b }
    ensures sound { Sound result text.new }
{
    if b == b' ' {
        return Call::behind_name(&text[..n]);
    }
    if n < text.len() {
        text[n] = b;
        return Call::Name { length: n + 1 };
    }
    Call::Bad
}

impl Call {
    // A line with no character.
    pub fn new(format: Format) -> Call
        ensures { result ≡ fresh format }
    {
        match format {
            Format::Texts => Call::Digits {
                service: Service::Listing,
                line: Line::new(),
            },
            Format::Calls => Call::Name { length: 0 },
        }
    }

    // Whether a line has a character.
    pub fn is_begun(self) -> bool
        ensures { result ≡ begun_by self }
    {
        match self {
            Call::Name { length } => length != 0,
            Call::Digits { line, .. } => line.begun,
            Call::Start { .. } | Call::Dash { .. } | Call::Bad => true,
        }
    }

    // The line behind a name and a space.
    fn behind_name(name: &[u8]) -> Call
        ensures { result ≡ named name.now }
    {
        match Service::named(name) {
            Some(service) => Call::Start { service },
            None => Call::Bad,
        }
    }

    // The line with one more character, which is no line end. The buffer is lent, so that it goes with the line (`Sound`) is a clause here; the
    // type that owns both has it as a ghost field (`LineReader` of `service_lines`).
    pub fn next(self, text: &mut [u8], b: u8) -> Call
        requires { Sound self text.old }
        ensures value { result ≡ after text.old self b }
        ensures text_after { text.new ≡ text_after text.old self b }
        ensures sound { Sound result text.new }
    {
        match self {
            Call::Name { length } => next_in_name(text, length, b),
            Call::Start { service } if b == b'-' => Call::Dash { service },
            Call::Start { service } => Call::Digits {
                service,
                line: Line::new().next(text, b),
            },
            Call::Digits { service, line } => Call::Digits {
                service,
                line: line.next(text, b),
            },
            Call::Dash { .. } | Call::Bad => Call::Bad,
        }
    }

    // What a line asks for if it ends here.
    pub fn ended(self) -> Option<Request>
        ensures { result ≡ requested self }
    {
        match self {
            Call::Dash { service } => Some(Request { service, kept: 0 }),
            Call::Digits { service, line } if line.is_text() => Some(Request {
                service,
                kept: line.kept,
            }),
            Call::Name { .. } | Call::Start { .. } | Call::Digits { .. } | Call::Bad => None,
        }
    }
}
