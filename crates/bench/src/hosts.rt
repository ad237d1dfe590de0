// Examples of the C host's entry, with its report, and of the house policy.
use crate::case::Case;
use crate::tally::Tally;
use crate::{runs, tags};
use std::io::Write;

// while 1 do skip.
fn endless() -> Case {
    let c = Case::of(1, 2, 0, 0).constant(1).skip();
    c.while_do(0, 0).host(16)
}

fn reports(t: &mut Tally<impl Write>) {
    let c = runs::countdown().place(2, 0).budget(0);
    t.tried("C entry, report of 11 bytes", c.host(11), 30, 0, 0, 0);
    t.tried("C entry, no report", c.host(0), 30, 0, 0, 0);
    let short = c.recipe_length(0).host(11);
    t.tried("C entry, 30 before 16", short, 30, 0, 0, 0);
    let c = c.leaves(0, 0, 0);
    t.tried("C entry, budget 0", c.host(16), 0, 0, 5, 0);
    t.tried("C entry, report of 12 bytes", c.host(12), 0, 0, 5, 0);
    t.tried("C entry, budget 4", c.budget(4).host(16), 1, 0, 4, 0);
}

fn entries(t: &mut Tally<impl Write>) {
    let c = endless();
    t.tried("C entry, house budget", c.budget(0), 1, 0, 10000, 0);
    t.tried("C entry, budget 7", c.budget(7), 1, 0, 7, 0);
    let c = tags::lesson().place(0, 0).place(1, 1).host(16);
    t.tried("C entry, stop", c, 2, 1, 2, 0);
    let c = tags::two_records().room(9).host(16);
    t.tried("C entry, records", c, 7, 1, 4, 1);
    let c = tags::lesson().place(0, 0).place(1, 2).host(16);
    t.tried("C entry, refusal", c, 28, 1, 0, 0);
    let c = runs::negations(256).host(16);
    t.tried("C entry, place 256", c, 21, 256, 0, 0);
}

fn houses(t: &mut Tally<impl Write>) {
    t.housed("house policy into 300 bytes", 300, 0);
    t.housed("house policy into 266 bytes", 266, 0);
    t.housed("house policy into 265 bytes", 265, 29);
    t.housed("house policy into nothing", 0, 29);
}

pub fn all(t: &mut Tally<impl Write>) {
    reports(t);
    entries(t);
    houses(t);
}
