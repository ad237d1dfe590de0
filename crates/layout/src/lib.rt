// How the run holds accepted tables: the decoded tables as a struct, and the definitions and laws of what it holds.
#![tactic(auto)]

ghost use Rattle.std.specs.Prelude.{◌≡◌};
ghost use Rattle.layout.specs.Tables.{no_tables, unary_operator, binary_operator};

use rules::{BinaryOp, UnaryOp};

// A decoded statement: what it is, and the numbers that it names.
#[derive(Clone, Copy)]
pub struct Record {
    pub kind: u16,
    pub first: u16,
    pub second: u16,
    pub third: u16,
}

// A leaf is known by its place, a flat expression by its operands' places, a deep one by its operands' numbers.
#[derive(Clone, Copy)]
pub enum Form {
    Leaf,
    Flat,
    Deep,
}

// What an expression does with its operands.
#[derive(Clone, Copy)]
pub enum Operator {
    Cell,
    Negate,
    Not,
    Absolute,
    Add,
    Sub,
    Mul,
    Div,
    Rem,
    Less,
    LessEq,
    Equal,
    NotEqual,
}

impl From<UnaryOp> for Operator {
    fn from(op: UnaryOp) -> Operator
        ensures { result ≡ unary_operator op }
    {
        match op {
            UnaryOp::Negate => Operator::Negate,
            UnaryOp::Not => Operator::Not,
            UnaryOp::Absolute => Operator::Absolute,
        }
    }
}

impl From<BinaryOp> for Operator {
    fn from(op: BinaryOp) -> Operator
        ensures { result ≡ binary_operator op }
    {
        match op {
            BinaryOp::Add => Operator::Add,
            BinaryOp::Sub => Operator::Sub,
            BinaryOp::Mul => Operator::Mul,
            BinaryOp::Div => Operator::Div,
            BinaryOp::Rem => Operator::Rem,
            BinaryOp::Less => Operator::Less,
            BinaryOp::LessEq => Operator::LessEq,
            BinaryOp::Equal => Operator::Equal,
            BinaryOp::NotEqual => Operator::NotEqual,
        }
    }
}

// A decoded expression. A leaf does nothing: its operator is Cell, and no one asks for it.
#[derive(Clone, Copy)]
pub struct Node {
    pub form: Form,
    pub operator: Operator,
    pub first: u16,
    pub second: u16,
}

// The decoded tables, filled once from an accepted recipe and policy. The join of tags a and b stands at 16 a + b.
#[derive(Clone, Copy)]
pub struct Tables {
    pub exprs: [Node; 1024],
    pub stmts: [Record; 512],
    pub joins: [u16; 256],
    pub clearances: [u16; 16],
    pub vars: u16,
    pub cells: u16,
}

impl Tables {
    // Nothing decoded yet.
    pub fn empty() -> Tables
        ensures { result ≡ no_tables }
    {
        let leaf = Node {
            form: Form::Leaf,
            operator: Operator::Cell,
            first: 0,
            second: 0,
        };
        let none = Record {
            kind: 0,
            first: 0,
            second: 0,
            third: 0,
        };
        Tables {
            exprs: [leaf; 1024],
            stmts: [none; 512],
            joins: [0; 256],
            clearances: [0; 16],
            vars: 0,
            cells: 0,
        }
    }
}
