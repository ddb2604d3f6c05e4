// Where an operator stands to its operands, and which operands of its own precedence it admits.
#[derive(Clone, Copy, PartialEq, Eq)]
pub enum Fixity {
    Infix,
    Prefix,
    Postfix,
}

#[derive(Clone, Copy, PartialEq, Eq)]
pub enum Associativity {
    Left,
    Non,
    Right,
}

// The place of an operand.
#[derive(Clone, Copy, PartialEq, Eq)]
pub enum Position {
    OnLeft,
    OnRight,
}
