// The numbers that document 01 gives to the kinds of records and to the operators: written out, and not taken from the order
// of the library's variants, so that the examples check that order too.
use rules::{BinaryOp, UnaryOp};

#[derive(Clone, Copy)]
pub enum ExprKind {
    Constant = 1,
    Variable = 2,
    Cell = 3,
    Unary = 4,
    Binary = 5,
}

#[derive(Clone, Copy)]
pub enum StmtKind {
    Skip = 0,
    Assign = 1,
    Store = 2,
    Then = 3,
    If = 4,
    While = 5,
    Emit = 6,
}

pub fn unary_number(op: UnaryOp) -> u8 {
    match op {
        UnaryOp::Negate => 0,
        UnaryOp::Not => 1,
        UnaryOp::Absolute => 2,
    }
}

pub fn binary_number(op: BinaryOp) -> u8 {
    match op {
        BinaryOp::Add => 0,
        BinaryOp::Sub => 1,
        BinaryOp::Mul => 2,
        BinaryOp::Div => 3,
        BinaryOp::Rem => 4,
        BinaryOp::Less => 5,
        BinaryOp::LessEq => 6,
        BinaryOp::Equal => 7,
        BinaryOp::NotEqual => 8,
    }
}
