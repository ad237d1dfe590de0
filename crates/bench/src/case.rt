// An example of the bench: the tables and buffers that go in, put together record by record, and the bytes that document
// 01 says must be left. By value throughout, so that a Case is copied and varied freely.
use crate::buffer::Buffer;
use crate::record::{ExprKind, StmtKind, binary_number, unary_number};
use crate::report::Report;
use rules::{BinaryOp, UnaryOp};

// There is room for a recipe of 514 records, a policy of 17 tags, 8 places of memory and 8 records. `report` is there where
// the example goes through the C host's entry. `after` and `written` are the memory and the record room as they must be left.
#[derive(Clone, Copy)]
pub struct Case {
    pub recipe: Buffer<4128>,
    policy: Buffer<300>,
    memory: Buffer<40>,
    room: Buffer<40>,
    report: Option<Buffer<40>>,
    budget: u32,
    after: Buffer<40>,
    written: Buffer<40>,
}

// A policy's header; the entries follow.
fn policy_header(tags: u8, ports: u8) -> Buffer<300> {
    let mut p = Buffer::new();
    p.push(b"RJP\x01\x00\x00");
    p.push(&[tags, ports]);
    p
}

// Two tags, of which port 0 is cleared for the first and port 1 for both.
fn two_tags() -> Buffer<300> {
    let mut p = policy_header(2, 2);
    p.push(&[0, 1, 1, 1, 0, 1]);
    p
}

// The house policy, whose entry (a,b) is the union of the two sets: as document 01 words it, not as the library writes it.
pub fn unions() -> Buffer<300> {
    let mut p = policy_header(16, 2);
    for entry in 0..=255u8 {
        p.push(&[entry / 16 | entry % 16]);
    }
    p.push(&[0, 15]);
    p
}

// A recipe's header; the records follow.
fn recipe_header(e: u16, s: u16, v: u16, m: u16) -> Buffer<4128> {
    let mut r = Buffer::zeros();
    r.push(b"RJR\x01\x00\x00");
    for count in [e, s, v, m] {
        r.push(&count.to_le_bytes());
    }
    r.push(&[0, 0]);
    r
}

// A place of a memory: the value, then the tag.
fn place_bytes(value: i32, tag: u8) -> [u8; 5] {
    let [a, b, c, d] = value.to_le_bytes();
    [a, b, c, d, tag]
}

impl Case {
    // E, S, V and M; the two-tag policy, no memory, no room, and a budget to end by only where an example sets its own.
    pub fn of(e: u16, s: u16, v: u16, m: u16) -> Case {
        Case {
            recipe: recipe_header(e, s, v, m),
            policy: two_tags(),
            memory: Buffer::zeros(),
            room: Buffer::new(),
            report: None,
            budget: 2000,
            after: Buffer::zeros(),
            written: Buffer::new(),
        }
    }

    // ---- records of the recipe, expressions first, each put at once: put in parts, it copies the case at each part

    fn expression(mut self, kind: ExprKind, op: u8, a: u16, b: u32) -> Case {
        let [a0, a1] = a.to_le_bytes();
        let [b0, b1, b2, b3] = b.to_le_bytes();
        self.recipe.push(&[kind as u8, op, a0, a1, b0, b1, b2, b3]);
        self
    }

    pub fn constant(self, value: i32) -> Case {
        self.expression(ExprKind::Constant, 0, 0, value.cast_unsigned())
    }

    pub fn variable(self, a: u16) -> Case {
        self.expression(ExprKind::Variable, 0, a, 0)
    }

    pub fn cell(self, a: u16) -> Case {
        self.expression(ExprKind::Cell, 0, a, 0)
    }

    pub fn unary(self, op: UnaryOp, a: u16) -> Case {
        self.expression(ExprKind::Unary, unary_number(op), a, 0)
    }

    pub fn binary(self, op: BinaryOp, a: u16, b: u32) -> Case {
        self.expression(ExprKind::Binary, binary_number(op), a, b)
    }

    fn statement(mut self, kind: StmtKind, port: u8, operands: [u16; 3]) -> Case {
        let [[a0, a1], [b0, b1], [c0, c1]] = operands.map(u16::to_le_bytes);
        self.recipe
            .push(&[kind as u8, port, a0, a1, b0, b1, c0, c1]);
        self
    }

    pub fn skip(self) -> Case {
        self.statement(StmtKind::Skip, 0, [0, 0, 0])
    }

    pub fn assign(self, a: u16, b: u16) -> Case {
        self.statement(StmtKind::Assign, 0, [a, b, 0])
    }

    pub fn store(self, a: u16, b: u16) -> Case {
        self.statement(StmtKind::Store, 0, [a, b, 0])
    }

    pub fn then(self, a: u16, b: u16) -> Case {
        self.statement(StmtKind::Then, 0, [a, b, 0])
    }

    pub fn if_else(self, a: u16, b: u16, c: u16) -> Case {
        self.statement(StmtKind::If, 0, [a, b, c])
    }

    pub fn while_do(self, a: u16, b: u16) -> Case {
        self.statement(StmtKind::While, 0, [a, b, 0])
    }

    pub fn emit(self, port: u8, a: u16) -> Case {
        self.statement(StmtKind::Emit, port, [a, 0, 0])
    }

    // ---- the other inputs

    pub fn house(mut self) -> Case {
        self.policy.len = 266;
        vraduceni::vraduceni_house_policy(self.policy.lent_mut());
        self
    }

    // The next place of the memory; the run is to leave it so unless `leaves` says otherwise.
    pub fn place(mut self, value: i32, tag: u8) -> Case {
        let bytes = place_bytes(value, tag);
        self.memory.push(&bytes);
        self.after.push(&bytes);
        self
    }

    pub fn room(mut self, n: usize) -> Case {
        self.room = Buffer::lending(n);
        self
    }

    pub fn budget(mut self, n: u32) -> Case {
        self.budget = n;
        self
    }

    // Through the C host's entry, with a report of n bytes.
    pub fn host(mut self, n: usize) -> Case {
        self.report = Some(Buffer::lending(n));
        self
    }

    // ---- one thing made wrong

    pub fn recipe_byte(mut self, o: usize, x: u8) -> Case {
        self.recipe.put(o, &[x]);
        self
    }

    pub fn policy_byte(mut self, o: usize, x: u8) -> Case {
        self.policy.put(o, &[x]);
        self
    }

    pub fn memory_byte(mut self, o: usize, x: u8) -> Case {
        self.memory.put(o, &[x]);
        self.after.put(o, &[x]);
        self
    }

    pub fn recipe_length(mut self, n: usize) -> Case {
        self.recipe.len = n;
        self
    }

    pub fn policy_length(mut self, n: usize) -> Case {
        self.policy.len = n;
        self
    }

    pub fn memory_length(mut self, n: usize) -> Case {
        self.memory.len = n;
        self
    }

    // ---- what must come back

    // Place i of the memory.
    pub fn leaves(mut self, i: u8, value: i32, tag: u8) -> Case {
        self.after.put(5 * usize::from(i), &place_bytes(value, tag));
        self
    }

    pub fn emitted(mut self, port: u8, value: i32) -> Case {
        self.written.push(&[port]);
        self.written.push(&value.to_le_bytes());
        self
    }

    // ---- the call

    // What comes back; the memory, the record room and the report are left as the machine leaves them.
    pub fn judge(&mut self) -> Report {
        let recipe = self.recipe.lent();
        let policy = self.policy.lent();
        let memory = self.memory.lent_mut();
        let room = self.room.lent_mut();
        let budget = self.budget;
        let Some(report) = &mut self.report else {
            return Report::of_outcome(machine::judge(recipe, policy, memory, room, budget));
        };
        let lent = report.lent_mut();
        let number = vraduceni::vraduceni_judge(recipe, policy, memory, room, lent, budget);
        Report::of_host(number, report.lent())
    }

    // The C host's report as it must be left: untouched where it is too short.
    fn reported(&self, want: Report) -> Option<Buffer<40>> {
        let mut report = self.report?;
        if 12 <= report.len {
            report.put(0, &want.end.to_le_bytes()[..2]);
            report.put(2, &want.place.to_le_bytes()[..2]);
            report.put(4, &want.steps.to_le_bytes());
            report.put(8, &want.records.to_le_bytes());
        }
        Some(report)
    }

    // Whether `left` holds the bytes that must be left.
    pub fn leaves_as(&self, left: &Case, want: Report) -> bool {
        left.memory.bytes == self.after.bytes
            && left.room.bytes == self.written.bytes
            && left.report == self.reported(want)
    }
}
