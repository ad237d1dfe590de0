// The data of document 01, which the definitions in specs/ and the code both speak of. No code.
#![tactic(auto)]

#[derive(Clone, Copy)]
pub enum UnaryOp {
    Negate,
    Not,
    Absolute,
}

#[derive(Clone, Copy)]
pub enum BinaryOp {
    Add,
    Sub,
    Mul,
    Div,
    Rem,
    Less,
    LessEq,
    Equal,
    NotEqual,
}

// An expression record: operands by their numbers. BadExpr: no expression stands there.
#[derive(Clone, Copy)]
pub enum Expr {
    Constant(u32),
    Variable(usize),
    Cell(usize),
    Unary(UnaryOp, usize),
    Binary(BinaryOp, usize, usize),
    BadExpr,
}

// A statement record: expressions and statements by their numbers. BadStmt: no statement stands there.
#[derive(Clone, Copy)]
pub enum Stmt {
    Skip,
    Assign(usize, usize),
    Store(usize, usize),
    Then(usize, usize),
    If(usize, usize, usize),
    While(usize, usize),
    Emit(u8, usize),
    BadStmt,
}

// A value and its tag: a place of the memory, and what an expression gives.
#[derive(Clone, Copy)]
pub struct Place {
    pub value: u32,
    pub tag: u8,
}

// Why a run ends early, each with document 01's number.
#[derive(Clone, Copy)]
pub enum Stop {
    AssignTag = 2,
    StoreTag = 3,
    EmitTag = 4,
    Index = 5,
    Divisor = 6,
    Room = 7,
    Frames = 8,
}

#[derive(Clone, Copy)]
pub enum Frame {
    Next(usize),
    Join(u8),
    Loop(usize, u8),
}

// What beginning a statement asks of the state: nothing; a frame, with the statement to begin and the branch tag after it;
// a place written; a record; the end of the run.
#[derive(Clone, Copy)]
pub enum Act {
    Passes,
    Pushes(Frame, usize, u8),
    Writes(usize, Place),
    Records(u8, u32),
    Stops(Stop),
}

// What a repeated test asks: the body again, with the branch tag; leaving the loop; the end of the run.
#[derive(Clone, Copy)]
pub enum Again {
    Repeats(usize, u8),
    Leaves,
    Fails(Stop),
}

// Why a recipe, a policy, a memory or a buffer is refused, with the place where there is one.
#[derive(Clone, Copy)]
pub enum Refusal {
    RecipeLength,
    RecipeMark,
    RecipeVersion,
    RecipeHeader,
    BadExpression(usize),
    WideExpression(usize),
    BadStatement(usize),
    PolicyHeader,
    PolicyEntry(usize),
    PolicyLaw,
    BadPort(usize),
    MemoryLength,
    MemoryTag(usize),
    HouseRoom,
    ReportRoom,
}

// What a check finds: nothing to say, or why it refuses.
pub type Checked = Result<(), Refusal>;

// How a run ends; early with the statement carried out.
#[derive(Clone, Copy)]
pub enum End {
    Done,
    Budget,
    Stopped(Stop, usize),
    Refused(Refusal),
}

// The result of a run: its end, and the two counts.
#[derive(Clone, Copy)]
pub struct Outcome {
    pub end: End,
    pub steps: u32,
    pub records: u32,
}
