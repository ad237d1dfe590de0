// Filling the tables and the places that the run reads, once, from accepted bytes; and the memory's bytes from them at the end.
#![tactic(auto)]

ghost use Rattle.std.specs.Prelude.{◌≡◌, ℕ, ◌+◌, ◌*◌, ◌/◌, ◌<◌, ◌≤◌, length, get_or};
ghost use Rattle.rules.specs.Bytes.{byte};
ghost use Rattle.rules.specs.Policy.{policy_of};
ghost use Rattle.rules.specs.Recipe.{Recipe, recipe_of};
ghost use Rattle.rules.specs.Memory.{places_of, place_bytes, count};
ghost use Rattle.rules.specs.Accepted.{StmtOk, WellFormed, LawfulPolicy};
ghost use Rattle.layout.specs.Tables.{node_of, node_at, record_of, ExprAs, Decoded};
ghost use Rattle.layout.specs.Places.{held_from, held_in, ConstantAs};
ghost use Rattle.decode.specs.Filled.{one_operand, two_operands, expr_node, stmt_record, Kept, ExprsAs, StmtsAs, RowAs, JoinsAs, ClearancesAs, PlacesAs, ConstantsAs};

use layout::{Form, Node, Operator, Record, Tables};
use rules::{Expr, Place, Stmt};

// Where the constants begin, above the memory's places.
const CONSTANTS: usize = 1088;

// ---- expressions

fn node_of(form: Form, operator: Operator, first: u16, second: u16) -> Node
    ensures { result ≡ node_of form operator first second }
{
    Node {
        form,
        operator,
        first,
        second,
    }
}

// An operand that is a leaf is named by its place, which its own node has.
#[tactic(auto, using(crate::proofs::Tables::leaf_read, crate::proofs::Tables::inner_read))]
fn one_operand(exprs: &[Node; 1024], k: Operator, a: usize) -> Node
    requires { a < 1024 }
    ensures { (R : Recipe) → ExprAs R (node_at exprs.now a) a (R.expr_at a) → result ≡ one_operand R k a }
{
    match exprs[a].form {
        Form::Leaf => node_of(Form::Flat, k, exprs[a].first, 0),
        _ => node_of(Form::Deep, k, a as u16, 0),
    }
}

// Both operands are named by their places, or neither.
#[tactic(auto, using(crate::proofs::Tables::leaf_read, crate::proofs::Tables::inner_read))]
fn two_operands(exprs: &[Node; 1024], k: Operator, a: usize, b: usize) -> Node
    requires { (a < 1024) × (b < 1024) }
    ensures { (R : Recipe) → ExprAs R (node_at exprs.now a) a (R.expr_at a) → ExprAs R (node_at exprs.now b) b (R.expr_at b) → result ≡ two_operands R k a b }
{
    match (exprs[a].form, exprs[b].form) {
        (Form::Leaf, Form::Leaf) => node_of(Form::Flat, k, exprs[a].first, exprs[b].first),
        _ => node_of(Form::Deep, k, a as u16, b as u16),
    }
}

// An expression's operands are lower than itself, so that their nodes are there.
fn expr_node(r: &[u8], exprs: &[Node; 1024], e: usize) -> Node
    requires { WellFormed r.now × (e < (recipe_of r.now).exprs) × ExprsAs r.now e exprs.now }
    ensures { result ≡ expr_node (recipe_of r.now) e ((recipe_of r.now).expr_at e) }
{
    match tables::expr_at(r, e) {
        Expr::Constant(_) => node_of(Form::Leaf, Operator::Cell, (CONSTANTS + e) as u16, 0),
        Expr::Variable(v) => node_of(Form::Leaf, Operator::Cell, v as u16, 0),
        Expr::Cell(i) => one_operand(exprs, Operator::Cell, i),
        Expr::Unary(op, a) => one_operand(exprs, Operator::from(op), a),
        Expr::Binary(op, a, b) => two_operands(exprs, Operator::from(op), a, b),
        Expr::BadExpr => node_of(Form::Leaf, Operator::Cell, 0, 0),
    }
}

fn decode_exprs(r: &[u8], exprs: &mut [Node; 1024])
    requires { WellFormed r.now }
    ensures { ExprsAs r.now (recipe_of r.now).exprs exprs.new }
{
    let count = tables::half_at(r, 6);
    for e in 0..count {
        exprs[e] = expr_node(r, exprs, e);
    }
}

// ---- statements

fn record_of(kind: u16, first: u16, second: u16, third: u16) -> Record
    ensures { result ≡ record_of kind first second third }
{
    Record {
        kind,
        first,
        second,
        third,
    }
}

fn stmt_record(x: Stmt) -> Record
    requires { StmtOk 64 1024 512 x }
    ensures { result ≡ stmt_record x }
{
    match x {
        Stmt::Skip => record_of(0, 0, 0, 0),
        Stmt::Assign(v, e) => record_of(1, v as u16, e as u16, 0),
        Stmt::Store(i, e) => record_of(2, i as u16, e as u16, 0),
        Stmt::Then(a, b) => record_of(3, a as u16, b as u16, 0),
        Stmt::If(e, a, b) => record_of(4, e as u16, a as u16, b as u16),
        Stmt::While(e, a) => record_of(5, e as u16, a as u16, 0),
        Stmt::Emit(port, e) => record_of(6, e as u16, u16::from(port), 0),
        Stmt::BadStmt => record_of(0, 0, 0, 0),
    }
}

fn decode_stmts(r: &[u8], stmts: &mut [Record; 512])
    requires { WellFormed r.now }
    ensures { StmtsAs r.now (recipe_of r.now).stmts stmts.new }
{
    let count = tables::half_at(r, 8);
    for s in 0..count {
        stmts[s] = stmt_record(tables::stmt_at(r, s));
    }
}

// ---- the policy

fn decode_row(p: &[u8], a: u8, joins: &mut [u16; 256])
    requires { LawfulPolicy p.now × (a < byte p.now 6) }
    ensures { RowAs p.now a (byte p.now 6) joins.new × Kept (16 * a) joins.old joins.new }
{
    let from = 16 * usize::from(a);
    let tags = p[6];
    for b in 0..tags {
        joins[from + usize::from(b)] = u16::from(policy::join(p, a, b));
    }
}

fn decode_joins(p: &[u8], joins: &mut [u16; 256])
    requires { LawfulPolicy p.now }
    ensures { JoinsAs p.now (byte p.now 6) joins.new }
{
    let tags = p[6];
    for a in 0..tags {
        decode_row(p, a, joins);
    }
}

fn decode_clearances(p: &[u8], clearances: &mut [u16; 16])
    requires { LawfulPolicy p.now }
    ensures { ClearancesAs p.now (byte p.now 7) clearances.new }
{
    let ports = p[7];
    for port in 0..ports {
        clearances[usize::from(port)] = u16::from(policy::clearance(p, port));
    }
}

// ---- both tables

pub fn decode(r: &[u8], p: &[u8], t: &mut Tables)
    requires { WellFormed r.now × LawfulPolicy p.now }
    ensures { Decoded (policy_of p.now) (recipe_of r.now) t.new }
{
    decode_exprs(r, &mut t.exprs);
    decode_stmts(r, &mut t.stmts);
    decode_joins(p, &mut t.joins);
    decode_clearances(p, &mut t.clearances);
    t.vars = tables::half_at(r, 10) as u16;
    t.cells = tables::half_at(r, 12) as u16;
}

// ---- the places

fn load_places(m: &[u8], count: usize, u: &mut [u64; 2112])
    requires { (count ≤ 1088) × (length m.now ≡ 5 * count) }
    ensures { PlacesAs m.now count u.new }
{
    for (i, x) in u[..count].iter_mut().enumerate() {
        let q = memory::place_at(m, i);
        *x = u64::from(q.value) + 4294967296 * u64::from(q.tag);
    }
}

fn load_constants(r: &[u8], u: &mut [u64; 2112])
    requires { WellFormed r.now }
    ensures { ConstantsAs r.now (recipe_of r.now).exprs u.new × Kept 1088 u.old u.new }
{
    let exprs = tables::half_at(r, 6);
    for e in 0..exprs {
        if let Expr::Constant(w) = tables::expr_at(r, e) {
            u[CONSTANTS + e] = u64::from(w);
        }
    }
}

pub fn load(r: &[u8], m: &[u8], u: &mut [u64; 2112])
    requires { WellFormed r.now × (length m.now ≡ 5 * count (recipe_of r.now)) }
    ensures { (held_in (recipe_of r.now) u.new ≡ places_of (recipe_of r.now) m.now) × ConstantsAs r.now (recipe_of r.now).exprs u.new × (length u.new ≡ 2112) }
{
    let vars = tables::half_at(r, 10);
    let cells = tables::half_at(r, 12);
    load_places(m, vars + cells, u);
    load_constants(r, u);
}

pub fn write_back(u: &[u64; 2112], count: usize, m: &mut [u8])
    requires { (count ≤ 1088) × (length m.old ≡ 5 * count) × ((i : ℕ) → i < count → get_or u.now i 0 / 4294967296 < 256) }
    ensures { m.new ≡ place_bytes (held_from u.now 0 count) }
{
    for (i, &x) in u[..count].iter().enumerate() {
        memory::put_place(
            m,
            i,
            Place {
                value: (x % 4294967296) as u32,
                tag: (x / 4294967296) as u8,
            },
        );
    }
}
