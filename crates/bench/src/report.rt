// The result of a run.
use std::fmt;

#[derive(Clone, Copy, Default, PartialEq, Eq)]
pub struct Report {
    pub end: u32,
    pub place: usize,
    pub steps: u32,
    pub records: u32,
}

impl Report {
    pub fn of_outcome(o: rules::Outcome) -> Report {
        Report {
            end: ends::end_number(o.end),
            place: ends::end_place(o.end),
            steps: o.steps,
            records: o.records,
        }
    }

    // The C host's number, and the rest from its report, if it has one.
    pub fn of_host(number: u32, report: &[u8]) -> Report {
        let &[_, _, p0, p1, s0, s1, s2, s3, r0, r1, r2, r3, ..] = report else {
            return Report::alone(number);
        };
        Report {
            end: number,
            place: usize::from(u16::from_le_bytes([p0, p1])),
            steps: u32::from_le_bytes([s0, s1, s2, s3]),
            records: u32::from_le_bytes([r0, r1, r2, r3]),
        }
    }

    pub fn alone(end: u32) -> Report {
        Report {
            end,
            ..Report::default()
        }
    }
}

impl fmt::Display for Report {
    fn fmt<W: fmt::Write>(&self, f: &mut fmt::Formatter<W>) -> fmt::Result {
        let Report {
            end,
            place,
            steps,
            records,
        } = *self;
        write!(f, "{end} {place} {steps} {records}")
    }
}
