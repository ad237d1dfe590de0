// Examples of tags: the branch tag, the checks of assign, store and emit, and the record room.
use crate::case::Case;
use crate::tally::Tally;
use rules::{BinaryOp, UnaryOp};
use std::io::Write;

// ---- the lesson

// if h then x := 1 else skip: x is variable 0, h variable 1.
pub fn lesson() -> Case {
    let c = Case::of(2, 3, 2, 0).variable(1).constant(1);
    c.skip().assign(0, 1).if_else(0, 1, 0)
}

fn branches(t: &mut Tally<impl Write>) {
    let c = lesson().place(0, 0).place(1, 1);
    t.tried("P5 if h then x := 1, h = 1", c, 2, 1, 2, 0);
    t.tried("P5 stop on the last step", c.budget(2), 2, 1, 2, 0);
    t.tried("P5 budget used just before", c.budget(1), 1, 0, 1, 0);
    let c = lesson().place(0, 0).place(0, 1);
    t.tried("P6 h = 0", c, 0, 0, 3, 0);
    let c = lesson().place(0, 1).place(1, 1).leaves(0, 1, 1);
    t.tried("P7 x with tag 1", c, 0, 0, 3, 0);
    let c = lesson().place(0, 0).place(-5, 0).leaves(0, 1, 0);
    t.tried("h = -5 is true", c, 0, 0, 3, 0);
}

// (if h then skip else skip), then x := 1.
fn restored() -> Case {
    let c = Case::of(2, 4, 2, 0).variable(1).constant(1);
    c.skip().assign(0, 1).if_else(0, 0, 0).then(2, 1)
}

// if h then (if 1 then x := 1 else skip) else skip.
fn inner() -> Case {
    let c = Case::of(2, 4, 2, 0).variable(1).constant(1);
    c.skip().assign(0, 1).if_else(1, 1, 0).if_else(0, 2, 0)
}

// if h then ((if 1 then skip else skip), then x := 1) else skip.
fn restored_inside() -> Case {
    let c = Case::of(2, 5, 2, 0).variable(1).constant(1);
    let c = c.skip().assign(0, 1).if_else(1, 0, 0);
    c.then(2, 1).if_else(0, 3, 0)
}

fn joins(t: &mut Tally<impl Write>) {
    let c = restored().place(0, 0).place(1, 1).leaves(0, 1, 0);
    t.tried("after a marked branch x := 1", c, 0, 0, 6, 0);
    let c = restored().place(0, 0).place(0, 1).leaves(0, 1, 0);
    t.tried("after a marked branch not taken", c, 0, 0, 6, 0);
    let c = inner().place(0, 0).place(1, 1);
    t.tried("clean branch in a marked branch", c, 2, 1, 3, 0);
    let c = restored_inside().place(0, 0).place(1, 1);
    t.tried("after a clean branch in a marked one", c, 2, 1, 7, 0);
}

// ---- loops

// while x do (y := 1; x := h): x, y and h are variables 0, 1 and 2, and y := 1 is statement 1.
fn copied() -> Case {
    let c = Case::of(3, 5, 3, 0);
    let c = c.variable(0).constant(1).variable(2);
    c.skip().assign(1, 1).assign(0, 2).then(1, 2).while_do(0, 3)
}

// if h then (while 1 do y := 1) else skip.
fn endless() -> Case {
    let c = Case::of(2, 4, 2, 0).variable(0).constant(1);
    let c = c.assign(1, 1).while_do(1, 0).skip();
    c.if_else(0, 1, 2)
}

// while h do h := h - 1, then z := 1.
fn counted() -> Case {
    let c = Case::of(3, 4, 2, 0).variable(0).constant(1);
    let c = c.binary(BinaryOp::Sub, 0, 1).assign(0, 2).while_do(0, 0);
    c.assign(1, 1).then(1, 2)
}

// if h then (while w do w := w - 1; y := 1) else skip.
fn nested() -> Case {
    let c = Case::of(4, 6, 3, 0).variable(0).variable(1);
    let c = c.constant(1).binary(BinaryOp::Sub, 1, 2);
    let c = c.assign(1, 3).while_do(1, 0).assign(2, 2).then(1, 2);
    c.skip().if_else(0, 3, 4)
}

fn repeated_tests(t: &mut Tally<impl Write>) {
    let c = copied().place(1, 0).place(0, 0).place(1, 1);
    let c = c.leaves(0, 1, 1).leaves(1, 1, 0);
    t.tried("repeated test on a marked value", c, 2, 1, 8, 0);
    let c = copied().place(1, 0).place(0, 0).place(0, 1);
    let c = c.leaves(0, 0, 1).leaves(1, 1, 0);
    t.tried("loop left by a marked value", c, 0, 0, 6, 0);
    let c = copied().house().place(1, 1).place(0, 1).place(1, 2);
    let c = c.leaves(0, 1, 3).leaves(1, 1, 1);
    t.tried("repeated test joins a second camera", c, 2, 1, 8, 0);
    let c = endless().place(1, 1).place(0, 1);
    let c = c.leaves(1, 1, 1).budget(5);
    t.tried("repeated clean test keeps the branch tag", c, 1, 0, 5, 0);
}

// The branch tag after a loop is that of its beginning.
fn after_loops(t: &mut Tally<impl Write>) {
    let c = counted().place(1, 1).place(0, 0);
    let c = c.leaves(0, 0, 1).leaves(1, 1, 0);
    t.tried("after a marked loop z := 1", c, 0, 0, 6, 0);
    let c = counted().place(0, 1).place(0, 0).leaves(1, 1, 0);
    t.tried("after a marked loop never entered", c, 0, 0, 4, 0);
    let c = nested().place(1, 1).place(1, 1).place(0, 0);
    let c = c.leaves(1, 0, 1);
    t.tried("after a loop in a marked branch y := 1", c, 2, 2, 7, 0);
}

// ---- stores and loads

// c[i] := v, with i and v variables 0 and 1, on the house policy.
fn stored(index_tag: u8, value_tag: u8, cell_tag: u8) -> Case {
    let c = Case::of(2, 1, 2, 1).variable(0).variable(1);
    let c = c.store(0, 1).house();
    c.place(0, index_tag).place(6, value_tag).place(5, cell_tag)
}

// if h then c[i] := 1, with h and i variables 0 and 1, of tags 1 and 2.
fn stored_if(cell_tag: u8) -> Case {
    let c = Case::of(3, 3, 2, 1).variable(0).variable(1);
    let c = c.constant(1).skip().store(1, 2).if_else(0, 1, 0);
    c.house().place(1, 1).place(0, 2).place(5, cell_tag)
}

fn stores(t: &mut Tally<impl Write>) {
    t.tried("marked index, clean cell", stored(2, 4, 0), 3, 0, 1, 0);
    let c = stored(2, 4, 2).leaves(2, 6, 6);
    t.tried("marked index, cell of that tag", c, 0, 0, 1, 0);
    let c = stored(2, 4, 8);
    t.tried("marked index, cell of another tag", c, 3, 0, 1, 0);
    let c = stored(2, 4, 10).leaves(2, 6, 6);
    t.tried("marked index, cell of more tags", c, 0, 0, 1, 0);
    let c = stored(0, 4, 0).leaves(2, 6, 4);
    t.tried("marked value, clean cell", c, 0, 0, 1, 0);
    let c = stored_if(2);
    t.tried("branch and index tags, cell of one", c, 3, 1, 2, 0);
    let c = stored_if(3).leaves(2, 1, 3);
    t.tried("branch and index tags, cell of both", c, 0, 0, 3, 0);
}

fn values(t: &mut Tally<impl Write>) {
    let c = Case::of(2, 1, 2, 1).variable(0).cell(0).assign(1, 1);
    let c = c.house().place(0, 1).place(0, 0).place(5, 2);
    let c = c.leaves(1, 5, 3);
    t.tried("load joins index and cell", c, 0, 0, 1, 0);
    let c = Case::of(4, 1, 3, 0).variable(0).variable(1);
    let c = c.binary(BinaryOp::Add, 0, 1).unary(UnaryOp::Negate, 2);
    let c = c.assign(2, 3).house();
    let c = c.place(2, 1).place(3, 4).place(0, 0);
    let c = c.leaves(2, -5, 5);
    t.tried("binary joins, unary keeps", c, 0, 0, 1, 0);
    let c = Case::of(1, 1, 1, 0).constant(3).assign(0, 0);
    let c = c.place(2, 1).leaves(0, 3, 0);
    t.tried("a constant cleans what it is written to", c, 0, 0, 1, 0);
}

// ---- emissions

// emit x on a port.
fn emission(port: u8) -> Case {
    Case::of(1, 1, 1, 0).variable(0).emit(port, 0).place(7, 1)
}

// if h then emit 1 else emit 2.
fn verdicts(port: u8) -> Case {
    let c = Case::of(3, 3, 1, 0).variable(0).constant(1);
    let c = c.constant(2).emit(port, 1).emit(port, 2);
    c.if_else(0, 0, 1).room(5)
}

fn emissions(t: &mut Tally<impl Write>) {
    t.tried("P8 emit on port 0", emission(0).room(5), 4, 0, 1, 0);
    let c = emission(1).room(5).emitted(1, 7);
    t.tried("P9 emit on port 1", c, 0, 0, 1, 1);
    t.tried("P10 4 bytes room", emission(1).room(4), 7, 0, 1, 0);
}

fn choices(t: &mut Tally<impl Write>) {
    let c = verdicts(0);
    t.tried("marked branch, first verdict", c.place(1, 1), 4, 0, 2, 0);
    t.tried("marked branch, second verdict", c.place(0, 1), 4, 1, 2, 0);
    t.tried("house, first verdict", c.house().place(1, 4), 4, 0, 2, 0);
    t.tried("house, second verdict", c.house().place(0, 4), 4, 1, 2, 0);
    let c = verdicts(0).place(1, 0).emitted(0, 1);
    t.tried("clean branch, first verdict", c, 0, 0, 3, 1);
    let c = verdicts(1).place(0, 1).emitted(1, 2);
    t.tried("marked branch, second alarm", c, 0, 0, 3, 1);
}

// ---- room

// emit 7, then -2, on port 1; the first is written in every example.
pub fn two_records() -> Case {
    let c = Case::of(2, 3, 0, 0).constant(7).constant(-2);
    let c = c.emit(1, 0).emit(1, 1).then(0, 1);
    c.emitted(1, 7)
}

// Two alarms of a marked value, then a clean verdict, on the house policy.
fn alarms() -> Case {
    let c = Case::of(2, 4, 1, 0).variable(0).constant(1);
    let c = c.emit(1, 0).emit(0, 1).then(0, 1).then(0, 2);
    c.house().place(9, 5).emitted(1, 9).emitted(1, 9)
}

fn rooms(t: &mut Tally<impl Write>) {
    let c = two_records().emitted(1, -2);
    t.tried("room for two records", c.room(10), 0, 0, 4, 2);
    t.tried("room to spare", c.room(14), 0, 0, 4, 2);
    t.tried("room one byte short", two_records().room(9), 7, 1, 4, 1);
    t.tried("room for one record", two_records().room(5), 7, 1, 4, 1);
    t.tried("alarms fill the room", alarms().room(10), 7, 1, 7, 2);
    let c = alarms().emitted(0, 1).room(15);
    t.tried("room for alarms and verdict", c, 0, 0, 7, 3);
}

pub fn all(t: &mut Tally<impl Write>) {
    branches(t);
    joins(t);
    repeated_tests(t);
    after_loops(t);
    stores(t);
    values(t);
    emissions(t);
    choices(t);
    rooms(t);
}
