// Little-endian numbers and the records of the recipe table, read from bytes.
#![tactic(auto)]

ghost use Rattle.std.specs.Prelude.{◌≡◌, ◌+◌, ◌*◌, ◌<◌, length};
ghost use Rattle.rules.specs.Bytes.{half, whole};
ghost use Rattle.rules.specs.Recipe.{unary_expr, binary_expr, expr_of, stmt_of, recipe_of};

use rules::{BinaryOp, Expr, Stmt, UnaryOp};

// A byte as a wider number, with its bound.
pub fn wide(x: u8) -> usize
    ensures { (result ≡ x) × (result < 256) }
{
    usize::from(x)
}

pub fn half_at(b: &[u8], i: usize) -> usize
    requires { i + 1 < length b.now }
    ensures { (result ≡ half b.now i) × (result < 65536) }
{
    usize::from(u16::from_le_bytes([b[i], b[i + 1]]))
}

pub fn word_at(b: &[u8], i: usize) -> u32
    requires { i + 3 < length b.now }
    ensures { result ≡ whole b.now i }
{
    u32::from_le_bytes([b[i], b[i + 1], b[i + 2], b[i + 3]])
}

// ---- expressions: a field that the kind does not use is zero, or there is no such record

#[tactic(auto, unfolding(rules::specs::Recipe::unary_expr))]
fn unary_expr(operator: u8, a: usize) -> Expr
    ensures { result ≡ unary_expr operator a }
{
    match operator {
        0 => Expr::Unary(UnaryOp::Negate, a),
        1 => Expr::Unary(UnaryOp::Not, a),
        2 => Expr::Unary(UnaryOp::Absolute, a),
        _ => Expr::BadExpr,
    }
}

#[tactic(auto, unfolding(rules::specs::Recipe::binary_expr))]
fn binary_expr(operator: u8, a: usize, b: usize) -> Expr
    ensures { result ≡ binary_expr operator a b }
{
    match operator {
        0 => Expr::Binary(BinaryOp::Add, a, b),
        1 => Expr::Binary(BinaryOp::Sub, a, b),
        2 => Expr::Binary(BinaryOp::Mul, a, b),
        3 => Expr::Binary(BinaryOp::Div, a, b),
        4 => Expr::Binary(BinaryOp::Rem, a, b),
        5 => Expr::Binary(BinaryOp::Less, a, b),
        6 => Expr::Binary(BinaryOp::LessEq, a, b),
        7 => Expr::Binary(BinaryOp::Equal, a, b),
        8 => Expr::Binary(BinaryOp::NotEqual, a, b),
        _ => Expr::BadExpr,
    }
}

#[tactic(auto, using(crate::proofs::Fields::tests, crate::proofs::Fields::kinds), unfolding(rules::specs::Recipe::expr_if))]
fn expr_of(kind: u8, operator: u8, a: usize, b: u32) -> Expr
    ensures { result ≡ expr_of kind operator a b }
{
    match (kind, operator, a, b) {
        (1, 0, 0, b) => Expr::Constant(b),
        (2, 0, a, 0) => Expr::Variable(a),
        (3, 0, a, 0) => Expr::Cell(a),
        (4, operator, a, 0) => unary_expr(operator, a),
        (5, operator, a, b) => binary_expr(operator, a, b as usize),
        _ => Expr::BadExpr,
    }
}

#[tactic(auto, unfolding(rules::specs::Recipe::expr))]
pub fn expr_at(r: &[u8], e: usize) -> Expr
    requires { 16 + 8 * e + 7 < length r.now }
    ensures { result ≡ (recipe_of r.now).expr_at e }
{
    let o = 16 + 8 * e;
    // Read before the field at o + 2, which a spread's recursion goes on to in the register of e.
    let b = word_at(r, o + 4);
    expr_of(r[o], r[o + 1], half_at(r, o + 2), b)
}

// ---- statements, likewise

#[tactic(auto, using(crate::proofs::Fields::tests), unfolding(rules::specs::Recipe::stmt_of, rules::specs::Recipe::stmt_if))]
fn stmt_of(kind: u8, port: u8, a: usize, b: usize, c: usize) -> Stmt
    ensures { result ≡ stmt_of kind port a b c }
{
    match (kind, port, a, b, c) {
        (0, 0, 0, 0, 0) => Stmt::Skip,
        (1, 0, a, b, 0) => Stmt::Assign(a, b),
        (2, 0, a, b, 0) => Stmt::Store(a, b),
        (3, 0, a, b, 0) => Stmt::Then(a, b),
        (4, 0, a, b, c) => Stmt::If(a, b, c),
        (5, 0, a, b, 0) => Stmt::While(a, b),
        (6, port, a, 0, 0) => Stmt::Emit(port, a),
        _ => Stmt::BadStmt,
    }
}

#[tactic(auto, unfolding(rules::specs::Recipe::stmt))]
pub fn stmt_at(r: &[u8], s: usize) -> Stmt
    requires { 16 + 8 * half r.now 6 + 8 * s + 7 < length r.now }
    ensures { result ≡ (recipe_of r.now).stmt_at s }
{
    let o = 16 + 8 * half_at(r, 6) + 8 * s;
    let a = half_at(r, o + 2);
    let b = half_at(r, o + 4);
    let c = half_at(r, o + 6);
    stmt_of(r[o], r[o + 1], a, b, c)
}
