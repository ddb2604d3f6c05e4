// An error by its number, as `reader::Answer` has it for C, and the place of the fault: document 01's refusal. It prints as `refused N at P`.
use std::fmt;

#[derive(Clone, Copy)]
pub struct NumberedError {
    pub number: u8,
    pub offset: usize,
}

impl fmt::Display for NumberedError {
    ghost use Rattle.std.specs.Prelude.{Some};
    ghost use Rattle.listing.specs.Outcome.{error_output};

    ghost output = { λ r. Some (error_output r) };

    fn fmt<W: fmt::Write>(&self, f: &mut fmt::Formatter<W>) -> fmt::Result {
        write!(f, "refused {} at {}", self.number, self.offset)
    }
}
