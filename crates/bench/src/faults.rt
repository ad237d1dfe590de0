// Examples of the order in which faults are found, and of the statement that is their place.
use crate::case::Case;
use crate::tally::Tally;
use rules::BinaryOp;
use std::io::Write;

// Expressions 0 to 3: 1, 0, 1 / 0, and c[1], which is out of range with one cell.
fn faulty(e: u16, s: u16, v: u16) -> Case {
    let c = Case::of(e, s, v, 1).constant(1).constant(0);
    c.binary(BinaryOp::Div, 0, 1).cell(0)
}

// x := left op right, at place 1.
fn operands(t: &mut Tally<impl Write>, name: &str, op: BinaryOp, left: u16, right: u32, end: u32) {
    let c = faulty(5, 2, 1).binary(op, left, right);
    let c = c.skip().assign(0, 4).place(7, 0).place(8, 0);
    t.tried(name, c, end, 1, 1, 0);
}

fn binaries(t: &mut Tally<impl Write>) {
    operands(t, "c[bad] + 1/0", BinaryOp::Add, 3, 2, 5);
    operands(t, "1/0 + c[bad]", BinaryOp::Add, 2, 3, 6);
    operands(t, "c[bad] == 1/0", BinaryOp::Equal, 3, 2, 5);
    operands(t, "c[bad] / 0", BinaryOp::Div, 3, 1, 5);
    operands(t, "1 / c[bad]", BinaryOp::Div, 0, 3, 5);
    operands(t, "1/0 / 0", BinaryOp::Div, 2, 1, 6);
    operands(t, "0 / 0", BinaryOp::Div, 1, 1, 6);
    operands(t, "1 % 0", BinaryOp::Rem, 0, 1, 6);
}

// if h then statement 1 else skip, with h true and of tag 1, and a clean variable and a clean cell to write.
fn marked(c: Case) -> Case {
    c.if_else(4, 1, 0).place(1, 1).place(7, 0).place(8, 0)
}

// if h then c[index] := value.
fn stored(t: &mut Tally<impl Write>, name: &str, index: u16, value: u16, end: u32) {
    let c = faulty(5, 3, 2).variable(0).skip();
    let c = marked(c.store(index, value));
    t.tried(name, c, end, 1, 2, 0);
}

fn stores(t: &mut Tally<impl Write>) {
    stored(t, "store: index before value", 2, 3, 6);
    stored(t, "store: index fault", 3, 2, 5);
    stored(t, "store: value before range", 0, 2, 6);
    stored(t, "store: range before tag", 0, 0, 5);
    stored(t, "store: tag", 1, 0, 3);
}

fn writes(t: &mut Tally<impl Write>) {
    let c = faulty(5, 3, 2).variable(0).skip();
    let value = marked(c.assign(1, 2));
    t.tried("assign: value before tag", value, 6, 1, 2, 0);
    t.tried("assign: tag", marked(c.assign(1, 0)), 2, 1, 2, 0);
    let value = marked(c.emit(0, 2));
    t.tried("emit: value before tag", value, 6, 1, 2, 0);
    t.tried("emit: tag before room", marked(c.emit(0, 0)), 4, 1, 2, 0);
    t.tried("emit: room", marked(c.emit(1, 0)), 7, 1, 2, 0);
}

// Nothing is pushed, and the place is the statement whose test it is.
fn tests(t: &mut Tally<impl Write>) {
    let c = Case::of(3, 2, 0, 0).constant(1).constant(0);
    let c = c.binary(BinaryOp::Div, 0, 1).skip();
    t.tried("if 1/0", c.if_else(2, 0, 0), 6, 1, 1, 0);
    t.tried("while 1/0", c.while_do(2, 0), 6, 1, 1, 0);
    let c = Case::of(4, 2, 1, 0).constant(1).variable(0);
    let c = c.binary(BinaryOp::Div, 0, 1).binary(BinaryOp::Sub, 1, 0);
    let c = c.assign(0, 3).while_do(2, 0);
    let c = c.place(1, 0).leaves(0, 0, 0);
    t.tried("while 1/x do x := x - 1", c, 6, 1, 3, 0);
}

pub fn all(t: &mut Tally<impl Write>) {
    binaries(t);
    stores(t);
    writes(t);
    tests(t);
}
