// Examples of budgets, values, indices, sizes and faults: what a run does whatever the tags.
use crate::case::Case;
use crate::tally::Tally;
use rules::{BinaryOp, UnaryOp};
use std::io::Write;

// ---- budgets

// while x do x := x - 1, as document 01 writes it out.
pub fn countdown() -> Case {
    let c = Case::of(3, 2, 1, 0);
    let c = c.variable(0).constant(1).binary(BinaryOp::Sub, 0, 1);
    c.assign(0, 2).while_do(0, 0)
}

// The assembler agrees with the bytes that document 01 gives.
fn spelled(t: &mut Tally<impl Write>) {
    t.spelled(
        "countdown, its bytes",
        countdown(),
        b"RJR\x01\x00\x00\x03\x00\x02\x00\x01\x00\x00\x00\x00\x00\
        \x02\x00\x00\x00\x00\x00\x00\x00\x01\x00\x00\x00\x01\x00\x00\x00\x05\x01\x00\x00\x01\x00\x00\x00\
        \x01\x00\x00\x00\x02\x00\x00\x00\x05\x00\x00\x00\x00\x00\x00\x00",
    );
}

fn budgets(t: &mut Tally<impl Write>) {
    let c = countdown().place(2, 0);
    let zero = c.leaves(0, 0, 0);
    let one = c.leaves(0, 1, 0);
    t.tried("P1 countdown from 2, budget 5", zero.budget(5), 0, 0, 5, 0);
    t.tried("P2 budget 4", zero.budget(4), 1, 0, 4, 0);
    t.tried("budget 3", one.budget(3), 1, 0, 3, 0);
    t.tried("budget 1", c.budget(1), 1, 0, 1, 0);
    t.tried("budget 0 in the library", c.budget(0), 1, 0, 0, 0);
    t.tried("largest budget", zero.budget(u32::MAX), 0, 0, 5, 0);
    let c = countdown().place(0, 0);
    t.tried("P3 countdown from 0", c, 0, 0, 1, 0);
    t.tried("done on the last step", c.budget(1), 0, 0, 1, 0);
    let c = countdown().place(2, 1).leaves(0, 0, 1);
    t.tried("P4 countdown from 2 with tag 1", c, 0, 0, 5, 0);
    let c = countdown().place(2, 2).budget(0);
    t.tried("budget 0 still checks", c, 28, 0, 0, 0);
}

// ---- values

// x := left op right.
fn gives(t: &mut Tally<impl Write>, name: &str, op: BinaryOp, left: i32, right: i32, value: i32) {
    let c = Case::of(3, 1, 1, 0).constant(left).constant(right);
    let c = c.binary(op, 0, 1).assign(0, 2);
    let c = c.place(77, 0).leaves(0, value, 0);
    t.tried(name, c, 0, 0, 1, 0);
}

// x := op of operand.
fn turns(t: &mut Tally<impl Write>, name: &str, op: UnaryOp, operand: i32, value: i32) {
    let c = Case::of(2, 1, 1, 0).constant(operand).unary(op, 0);
    let c = c.assign(0, 1).place(77, 0).leaves(0, value, 0);
    t.tried(name, c, 0, 0, 1, 0);
}

fn sums(t: &mut Tally<impl Write>) {
    gives(t, "P11 highest + 1", BinaryOp::Add, i32::MAX, 1, i32::MIN);
    gives(t, "-3 + 5", BinaryOp::Add, -3, 5, 2);
    gives(t, "lowest - 1", BinaryOp::Sub, i32::MIN, 1, i32::MAX);
    gives(t, "3 - 5", BinaryOp::Sub, 3, 5, -2);
    gives(t, "P13 65536 * 65536", BinaryOp::Mul, 65536, 65536, 0);
    gives(t, "lowest * -1", BinaryOp::Mul, i32::MIN, -1, i32::MIN);
    gives(t, "-3 * 5", BinaryOp::Mul, -3, 5, -15);
}

fn signs(t: &mut Tally<impl Write>) {
    turns(t, "negate 7", UnaryOp::Negate, 7, -7);
    turns(t, "negate lowest", UnaryOp::Negate, i32::MIN, i32::MIN);
    turns(t, "absolute -7", UnaryOp::Absolute, -7, 7);
    turns(t, "absolute 7", UnaryOp::Absolute, 7, 7);
    turns(t, "absolute lowest", UnaryOp::Absolute, i32::MIN, i32::MIN);
}

fn quotients(t: &mut Tally<impl Write>) {
    gives(t, "P12 -7 / 2", BinaryOp::Div, -7, 2, -3);
    gives(t, "7 / -2", BinaryOp::Div, 7, -2, -3);
    gives(t, "-7 / -2", BinaryOp::Div, -7, -2, 3);
    gives(t, "lowest / -1", BinaryOp::Div, i32::MIN, -1, i32::MIN);
    gives(t, "lowest / 1", BinaryOp::Div, i32::MIN, 1, i32::MIN);
    gives(t, "P12 -7 % 2", BinaryOp::Rem, -7, 2, -1);
    gives(t, "7 % -2", BinaryOp::Rem, 7, -2, 1);
    gives(t, "-7 % -2", BinaryOp::Rem, -7, -2, -1);
    gives(t, "lowest % -1", BinaryOp::Rem, i32::MIN, -1, 0);
}

fn comparisons(t: &mut Tally<impl Write>) {
    gives(t, "-1 < 0", BinaryOp::Less, -1, 0, 1);
    gives(t, "0 < -1", BinaryOp::Less, 0, -1, 0);
    gives(t, "lowest < highest", BinaryOp::Less, i32::MIN, i32::MAX, 1);
    gives(t, "3 < 3", BinaryOp::Less, 3, 3, 0);
    gives(
        t,
        "highest <= lowest",
        BinaryOp::LessEq,
        i32::MAX,
        i32::MIN,
        0,
    );
    gives(t, "-1 <= -1", BinaryOp::LessEq, -1, -1, 1);
}

fn equalities(t: &mut Tally<impl Write>) {
    gives(t, "-1 == -1", BinaryOp::Equal, -1, -1, 1);
    gives(t, "-1 == 1", BinaryOp::Equal, -1, 1, 0);
    gives(t, "-1 != 1", BinaryOp::NotEqual, -1, 1, 1);
    gives(t, "5 != 5", BinaryOp::NotEqual, 5, 5, 0);
    turns(t, "not 0", UnaryOp::Not, 0, 1);
    turns(t, "not 1", UnaryOp::Not, 1, 0);
    turns(t, "not -5", UnaryOp::Not, -5, 0);
}

// ---- indices: one variable, two cells, and the load or store at place 1

fn load(i: i32) -> Case {
    let c = Case::of(2, 3, 1, 2).constant(i).cell(0);
    let c = c.skip().assign(0, 1).then(0, 1);
    c.place(7, 0).place(8, 0).place(9, 0)
}

fn store(i: i32) -> Case {
    let c = Case::of(2, 3, 1, 2).constant(i).constant(5);
    let c = c.skip().store(0, 1).then(0, 1);
    c.place(7, 0).place(8, 0).place(9, 0)
}

fn loads(t: &mut Tally<impl Write>) {
    t.tried("load at 0", load(0).leaves(0, 8, 0), 0, 0, 4, 0);
    t.tried("load at M-1", load(1).leaves(0, 9, 0), 0, 0, 4, 0);
    t.tried("load at M", load(2), 5, 1, 4, 0);
    t.tried("load at -1", load(-1), 5, 1, 4, 0);
    t.tried("load at lowest", load(i32::MIN), 5, 1, 4, 0);
    let c = Case::of(2, 1, 1, 0).constant(0).cell(0).assign(0, 1);
    t.tried("load with no cells", c.place(7, 0), 5, 0, 1, 0);
}

fn stores(t: &mut Tally<impl Write>) {
    t.tried("store at 0", store(0).leaves(1, 5, 0), 0, 0, 4, 0);
    t.tried("store at M-1", store(1).leaves(2, 5, 0), 0, 0, 4, 0);
    t.tried("store at M", store(2), 5, 1, 4, 0);
    t.tried("store at -1", store(-1), 5, 1, 4, 0);
    t.tried("store at lowest", store(i32::MIN), 5, 1, 4, 0);
}

// ---- sizes

// n negations over the constant 5.
pub fn negations(n: u16) -> Case {
    let c = Case::of(n.wrapping_add(1), 1, 1, 0).constant(5);
    let c = (0..n).fold(c, |c, i| c.unary(UnaryOp::Negate, i));
    c.assign(0, n).place(0, 0)
}

// The constant 1, and seven sums of the predecessor with itself.
fn doublings(e: u16) -> Case {
    Case::of(e, 1, 1, 0)
        .constant(1)
        .binary(BinaryOp::Add, 0, 0)
        .binary(BinaryOp::Add, 1, 1)
        .binary(BinaryOp::Add, 2, 2)
        .binary(BinaryOp::Add, 3, 3)
        .binary(BinaryOp::Add, 4, 4)
        .binary(BinaryOp::Add, 5, 5)
        .binary(BinaryOp::Add, 6, 6)
}

fn spreads(t: &mut Tally<impl Write>) {
    let c = negations(255).leaves(0, -5, 0);
    t.tried("255 negations, spread 256", c, 0, 0, 1, 0);
    t.tried("256 negations, spread 257", negations(256), 21, 256, 0, 0);
    let c = negations(256).recipe_byte(2065, 3);
    t.tried("20 before 21 at one expression", c, 20, 256, 0, 0);
    let c = negations(257).recipe_byte(2073, 3);
    t.tried("21 before 20 at the next", c, 21, 256, 0, 0);
    let c = doublings(8).assign(0, 7).place(0, 0).leaves(0, 128, 0);
    t.tried("seven doublings, spread 255", c, 0, 0, 1, 0);
    let c = doublings(9).unary(UnaryOp::Negate, 7).assign(0, 8);
    let c = c.place(0, 0).leaves(0, -128, 0);
    t.tried("seven doublings negated, spread 256", c, 0, 0, 1, 0);
    let c = doublings(9).binary(BinaryOp::Add, 7, 7).assign(0, 8);
    t.tried("eight doublings, spread 511", c.place(0, 0), 21, 8, 0, 0);
}

// Statement 0 skips, and each other is "the one before, then statement 0": S-1 frames are held at once.
fn nested(s: u16) -> Case {
    let c = Case::of(0, s, 0, 0).skip();
    (1..s).fold(c, |c, i| c.then(i - 1, 0))
}

fn statements(t: &mut Tally<impl Write>) {
    t.tried("S = 512", nested(512), 0, 0, 1534, 0);
    t.tried("S = 513", nested(513), 19, 0, 0, 0);
}

pub fn all(t: &mut Tally<impl Write>) {
    spelled(t);
    budgets(t);
    sums(t);
    signs(t);
    quotients(t);
    comparisons(t);
    equalities(t);
    loads(t);
    stores(t);
    spreads(t);
    statements(t);
}
