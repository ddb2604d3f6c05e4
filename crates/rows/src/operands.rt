// The operands of a token as the row of roots has them. Written by the search.

// Of an operator, one more than the token of the root of the operand on each side, 0 where there is none; of `(` and `in`, one more than
// that of the root of the span that it opens, on the left. One word each: with an `Option` a row would have twice as many.
#[derive(Clone, Copy)]
pub struct Operands {
    pub left: u16,
    pub right: u16,
}

impl Operands {
    pub const NONE: Operands = Operands { left: 0, right: 0 };
}
