// Tries the examples, compares what comes back with what document 01 says, and prints a line for each.
use crate::buffer::Buffer;
use crate::case::{Case, unions};
use crate::report::Report;
use std::io;
use std::io::Write;

// Where the lines go, the first write of them that failed, if any, and what was counted. After a failed write the examples
// are still tried and counted, and nothing more is said.
pub struct Tally<W> {
    out: W,
    said: io::Result<()>,
    examples: u64,
    differ: u64,
}

fn say_line(
    out: &mut impl Write,
    name: &str,
    got: Report,
    want: Report,
    same_bytes: bool,
) -> io::Result<()> {
    if got != want {
        writeln!(out, "{name} differs: got {got}, wanted {want}")
    } else if !same_bytes {
        writeln!(out, "{name} differs: bytes")
    } else {
        writeln!(out, "{name} ok")
    }
}

impl<W: Write> Tally<W> {
    pub fn new(out: W) -> Tally<W> {
        Tally {
            out,
            said: Ok(()),
            examples: 0,
            differ: 0,
        }
    }

    fn counted(&mut self, name: &str, got: Report, want: Report, same_bytes: bool) {
        if self.said.is_ok() {
            self.said = say_line(&mut self.out, name, got, want, same_bytes);
        }
        let differs = got != want || !same_bytes;
        self.examples = self.examples.wrapping_add(1);
        self.differ = self.differ.wrapping_add(u64::from(differs));
    }

    // An example, and the end, place, steps and records that document 01 says it has.
    pub fn tried(&mut self, name: &str, c: Case, end: u32, place: usize, steps: u32, records: u32) {
        let want = Report {
            end,
            place,
            steps,
            records,
        };
        let mut left = c;
        let got = left.judge();
        self.counted(name, got, want, c.leaves_as(&left, want));
    }

    // The house policy into a buffer of n bytes; 0 writes it, and nothing is written for 29.
    pub fn housed(&mut self, name: &str, n: usize, number: u32) {
        let mut out = Buffer::lending(n);
        let got = vraduceni::vraduceni_house_policy(out.lent_mut());
        let want = if number == 0 { unions() } else { Buffer::new() };
        let same_bytes = out.bytes == want.bytes;
        self.counted(name, Report::alone(got), Report::alone(number), same_bytes);
    }

    // The recipe's bytes as document 01 spells them.
    pub fn spelled(&mut self, name: &str, c: Case, bytes: &[u8]) {
        let same_bytes = c.recipe.lent() == bytes;
        self.counted(name, Report::default(), Report::default(), same_bytes);
    }

    // The counts, or the first write that failed.
    pub fn told(self) -> io::Result<()>
    where
        W: Drop,
    {
        let Tally {
            mut out,
            said,
            examples,
            differ,
        } = self;
        said?;
        writeln!(out, "{examples} examples, {differ} differ")
    }
}
