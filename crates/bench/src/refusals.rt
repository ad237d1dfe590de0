// Examples of refusals, each of which must leave the memory and the record room as they were: one recipe that has every
// kind of record, with a byte or a length made wrong.
use crate::case::Case;
use crate::tally::Tally;
use rules::{BinaryOp, UnaryOp};
use std::io::Write;

// Expressions from byte 16, statements from byte 56; 112 bytes. The run is the emit alone.
fn every_kind() -> Case {
    Case::of(5, 7, 1, 1)
        .constant(3)
        .variable(0)
        .cell(0)
        .unary(UnaryOp::Negate, 0)
        .binary(BinaryOp::Add, 1, 0)
        .skip()
        .assign(0, 0)
        .store(0, 0)
        .then(0, 1)
        .if_else(0, 0, 1)
        .while_do(0, 0)
        .emit(1, 4)
        .place(1, 0)
        .place(2, 0)
        .room(5)
}

fn refused(t: &mut Tally<impl Write>, name: &str, c: Case, end: u32, place: usize) {
    t.tried(name, c, end, place, 0, 0);
}

// One byte of the recipe.
fn patched(t: &mut Tally<impl Write>, name: &str, o: usize, x: u8, end: u32, place: usize) {
    t.tried(name, every_kind().recipe_byte(o, x), end, place, 0, 0);
}

fn headers(t: &mut Tally<impl Write>) {
    let c = every_kind().emitted(1, 4);
    t.tried("every kind of record", c, 0, 0, 1, 1);
    patched(t, "mark, first byte", 0, 0x53, 17, 0);
    patched(t, "mark, last byte", 2, 0x50, 17, 0);
    patched(t, "version 2", 3, 2, 18, 0);
    patched(t, "version 257", 4, 1, 18, 0);
    patched(t, "byte 5", 5, 1, 19, 0);
    patched(t, "byte 14", 14, 1, 19, 0);
    patched(t, "byte 15", 15, 1, 19, 0);
}

// Each count just past its range, and counts in range that are refused for what they count.
fn counts(t: &mut Tally<impl Write>) {
    let c = every_kind();
    patched(t, "S = 0", 8, 0, 19, 0);
    patched(t, "V = 65", 10, 65, 19, 0);
    patched(t, "V = 64", 10, 64, 27, 0);
    let e = c.recipe_byte(7, 4);
    refused(t, "E = 1025", e.recipe_byte(6, 1), 19, 0);
    refused(t, "E = 1024", e.recipe_byte(6, 0), 16, 0);
    let m = c.recipe_byte(13, 4);
    refused(t, "M = 1025", m.recipe_byte(12, 1), 19, 0);
    refused(t, "M = 1024", m.recipe_byte(12, 0), 27, 0);
}

fn lengths(t: &mut Tally<impl Write>) {
    let c = every_kind();
    refused(t, "recipe of no bytes", c.recipe_length(0), 16, 0);
    refused(t, "recipe of 15 bytes", c.recipe_length(15), 16, 0);
    refused(t, "recipe of its header", c.recipe_length(16), 16, 0);
    refused(t, "recipe a byte short", c.recipe_length(111), 16, 0);
    refused(t, "recipe a byte long", c.recipe_length(113), 16, 0);
}

fn header_order(t: &mut Tally<impl Write>) {
    let c = every_kind();
    let mark = c.recipe_byte(0, 0);
    refused(t, "16 short before 17", mark.recipe_length(15), 16, 0);
    refused(t, "17 before 16 length", mark.recipe_length(113), 17, 0);
    refused(t, "17 before 18", mark.recipe_byte(3, 2), 17, 0);
    let version = c.recipe_byte(3, 2);
    refused(t, "18 before 19", version.recipe_byte(5, 1), 18, 0);
    let zero = c.recipe_byte(5, 1);
    refused(t, "19 before 16 length", zero.recipe_length(111), 19, 0);
    let kind = c.recipe_byte(16, 0);
    refused(t, "16 length before 20", kind.recipe_length(111), 16, 0);
}

// Kinds 1 to 3, at bytes 16, 24 and 32.
fn leaves(t: &mut Tally<impl Write>) {
    patched(t, "expression of kind 0", 16, 0, 20, 0);
    patched(t, "constant: operator byte", 17, 1, 20, 0);
    patched(t, "constant: a", 18, 1, 20, 0);
    patched(t, "variable: operator byte", 25, 1, 20, 1);
    patched(t, "variable: a = V", 26, 1, 20, 1);
    patched(t, "variable: b", 28, 1, 20, 1);
    patched(t, "cell: operator byte", 33, 1, 20, 2);
    patched(t, "cell: index not lower", 34, 2, 20, 2);
    patched(t, "cell: b", 36, 1, 20, 2);
}

// Kinds 4 and 5, at bytes 40 and 48.
fn operators(t: &mut Tally<impl Write>) {
    patched(t, "unary: operator 3", 41, 3, 20, 3);
    patched(t, "unary: operand not lower", 42, 3, 20, 3);
    patched(t, "unary: b", 44, 1, 20, 3);
    patched(t, "binary: operator 9", 49, 9, 20, 4);
    patched(t, "binary: left not lower", 50, 4, 20, 4);
    patched(t, "binary: right not lower", 52, 4, 20, 4);
    patched(t, "binary: right 65536", 54, 1, 20, 4);
    patched(t, "expression of kind 6", 48, 6, 20, 4);
}

// Skip and assign, at bytes 56 and 64.
fn plain_statements(t: &mut Tally<impl Write>) {
    patched(t, "skip: port byte", 57, 1, 22, 0);
    patched(t, "skip: a", 58, 1, 22, 0);
    patched(t, "skip: b", 60, 1, 22, 0);
    patched(t, "skip: c", 62, 1, 22, 0);
    patched(t, "assign: port byte", 65, 1, 22, 1);
    patched(t, "assign: a = V", 66, 1, 22, 1);
    patched(t, "assign: b = E", 68, 5, 22, 1);
    patched(t, "assign: c", 70, 1, 22, 1);
}

// Store and then, at bytes 72 and 80.
fn pair_statements(t: &mut Tally<impl Write>) {
    patched(t, "store: port byte", 73, 1, 22, 2);
    patched(t, "store: a = E", 74, 5, 22, 2);
    patched(t, "store: b = E", 76, 5, 22, 2);
    patched(t, "store: c", 78, 1, 22, 2);
    patched(t, "then: port byte", 81, 1, 22, 3);
    patched(t, "then: a not lower", 82, 3, 22, 3);
    patched(t, "then: b not lower", 84, 3, 22, 3);
    patched(t, "then: c", 86, 1, 22, 3);
}

// If and while, at bytes 88 and 96.
fn test_statements(t: &mut Tally<impl Write>) {
    patched(t, "if: port byte", 89, 1, 22, 4);
    patched(t, "if: a = E", 90, 5, 22, 4);
    patched(t, "if: b not lower", 92, 4, 22, 4);
    patched(t, "if: c not lower", 94, 4, 22, 4);
    patched(t, "while: port byte", 97, 1, 22, 5);
    patched(t, "while: a = E", 98, 5, 22, 5);
    patched(t, "while: b not lower", 100, 5, 22, 5);
    patched(t, "while: c", 102, 1, 22, 5);
}

// Emit, at byte 104; its port is looked at only after the policy.
fn emit_statements(t: &mut Tally<impl Write>) {
    patched(t, "statement of kind 7", 104, 7, 22, 6);
    patched(t, "emit: a = E", 106, 5, 22, 6);
    patched(t, "emit: b", 108, 1, 22, 6);
    patched(t, "emit: c", 110, 1, 22, 6);
    patched(t, "emit: port = p", 105, 2, 26, 6);
    let c = every_kind().policy_byte(7, 1).policy_length(13);
    refused(t, "emit: port of a smaller policy", c, 26, 6);
    let c = Case::of(1, 2, 0, 0).constant(1).emit(2, 0).skip();
    refused(t, "emit: port, never reached", c, 26, 0);
}

fn record_order(t: &mut Tally<impl Write>) {
    let c = every_kind().recipe_byte(49, 9);
    refused(t, "20 upwards", c.recipe_byte(25, 1), 20, 1);
    refused(t, "20 before 22", c.recipe_byte(57, 1), 20, 4);
    let c = every_kind().recipe_byte(110, 1);
    refused(t, "22 upwards", c.recipe_byte(57, 1), 22, 0);
    refused(t, "22 before 23", c.policy_byte(0, 0), 22, 6);
}

fn policies(t: &mut Tally<impl Write>) {
    let c = every_kind();
    refused(t, "policy mark", c.policy_byte(2, 0x52), 23, 0);
    refused(t, "policy version", c.policy_byte(3, 2), 23, 0);
    refused(t, "policy byte 5", c.policy_byte(5, 1), 23, 0);
    refused(t, "policy of 0 tags", c.policy_byte(6, 0), 23, 0);
    let tags = c.policy_byte(6, 17).policy_length(299);
    refused(t, "policy of 17 tags", tags, 23, 0);
    let ports = c.policy_byte(7, 17).policy_length(29);
    refused(t, "policy of 17 ports", ports, 23, 0);
    refused(t, "policy a byte short", c.policy_length(13), 23, 0);
    refused(t, "policy a byte long", c.policy_length(15), 23, 0);
    refused(t, "policy of no bytes", c.policy_length(0), 23, 0);
}

// Joins at bytes 8 to 11, clearances at 12 and 13.
fn entries(t: &mut Tally<impl Write>) {
    let join = every_kind().policy_byte(10, 2);
    let clearance = every_kind().policy_byte(13, 2);
    refused(t, "join not below n", join, 24, 10);
    refused(t, "clearance not below n", clearance, 24, 13);
    refused(t, "23 before 24", join.policy_length(13), 23, 0);
    refused(t, "24 upwards", join.policy_byte(13, 2), 24, 10);
    refused(t, "24 before 25", clearance.policy_byte(11, 0), 24, 13);
}

// Three tags, of which 1 and 2 join to the tag given: a chain for 2, and for 0 a table that keeps every law but grouping.
fn three_tags(join: u8) -> Case {
    every_kind()
        .policy_byte(6, 3)
        .policy_byte(10, 2)
        .policy_byte(12, 1)
        .policy_byte(13, join)
        .policy_byte(14, 2)
        .policy_byte(15, join)
        .policy_byte(16, 2)
        .policy_byte(17, 0)
        .policy_byte(18, 1)
        .policy_length(19)
}

fn laws(t: &mut Tally<impl Write>) {
    let c = every_kind();
    refused(t, "law of (t,t)", c.policy_byte(11, 0), 25, 0);
    refused(t, "law of order", c.policy_byte(10, 0), 25, 0);
    let zero = c.policy_byte(9, 0).policy_byte(10, 0);
    refused(t, "law of (0,t)", zero, 25, 0);
    refused(t, "law of grouping", three_tags(0), 25, 0);
    let chain = three_tags(2).emitted(1, 4);
    t.tried("three tags in a chain", chain, 0, 0, 1, 1);
    let law = c.policy_byte(11, 0).recipe_byte(105, 2);
    refused(t, "25 before 26", law, 25, 0);
    let port = c.recipe_byte(105, 2).memory_length(9);
    refused(t, "26 before 27", port, 26, 6);
}

fn memories(t: &mut Tally<impl Write>) {
    let c = every_kind();
    refused(t, "memory a byte short", c.memory_length(9), 27, 0);
    refused(t, "memory a byte long", c.memory_length(11), 27, 0);
    refused(t, "memory of no bytes", c.memory_length(0), 27, 0);
    let variable = c.memory_byte(4, 2);
    let cell = c.memory_byte(9, 2);
    refused(t, "tag of a variable", variable, 28, 0);
    refused(t, "tag of a cell", cell, 28, 1);
    refused(t, "28 upwards", cell.memory_byte(4, 255), 28, 0);
    refused(t, "27 before 28", variable.memory_length(11), 27, 0);
    let c = every_kind().house().memory_byte(9, 16);
    refused(t, "tag 16 of the house policy", c, 28, 1);
    let c = every_kind().house().memory_byte(9, 15).emitted(1, 4);
    t.tried("tag 15 of the house policy", c, 0, 0, 1, 1);
}

pub fn all(t: &mut Tally<impl Write>) {
    headers(t);
    counts(t);
    lengths(t);
    header_order(t);
    leaves(t);
    operators(t);
    plain_statements(t);
    pair_statements(t);
    test_statements(t);
    emit_statements(t);
    record_order(t);
    policies(t);
    entries(t);
    laws(t);
    memories(t);
}
