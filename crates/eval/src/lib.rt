// Evaluation over the decoded tables t and the places u: an expression's value with its tag, or the fault that ends the run.
// Within this crate it is one word, so that it stays in a register; `value` opens it. A place is held as such a word too.
#![tactic(auto)]

ghost use Rattle.std.specs.Prelude.{◌≡◌, ◌+◌, ◌-◌, ◌*◌, ◌/◌, ◌%◌, ◌<◌, ◌≤◌, get_or};
ghost use Rattle.layout.specs.Tables.{expr_node, has_two, join_in};
ghost use Rattle.layout.specs.declared.Form.TheVariants.{Leaf, Flat, Deep};
ghost use Rattle.layout.specs.Places.{ExprGiven, Answered, Evaluated};
ghost use Rattle.layout.specs.Answers.{worth_of, stop_from};
ghost use Rattle.eval.specs.Packed.{tag_in, opened_of, cell_in, applied_in, CellAsked, Applies};

use layout::{Form, Operator, Tables};
use rules::{Place, Stop};

// From here on an answer is a fault, whose number is counted from here.
pub const FAULT: u64 = 9223372036854775808;

// ---- answers

pub fn word_of(x: u64) -> u32
    ensures { result ≡ x % 4294967296 }
{
    (x % 4294967296) as u32
}

pub fn tag_of(x: u64) -> u32
    ensures { result ≡ x / 4294967296 }
{
    (x / 4294967296) as u32
}

// No fault has number 0 or 1: they count as the first.
pub fn stop_of(x: u64) -> Stop
    requires { 9223372036854775808 ≤ x }
    ensures { result ≡ stop_from (x - 9223372036854775808) }
{
    match x - FAULT {
        0 | 1 | 2 => Stop::AssignTag,
        3 => Stop::StoreTag,
        4 => Stop::EmitTag,
        5 => Stop::Index,
        6 => Stop::Divisor,
        7 => Stop::Room,
        _ => Stop::Frames,
    }
}

pub fn answer(w: u32, g: u32) -> u64
    ensures { result ≡ w + 4294967296 * g }
{
    u64::from(w) + 4294967296 * u64::from(g)
}

fn place_of(x: u64) -> Place
    requires { tag_in x < 256 }
    ensures { result ≡ worth_of x }
{
    Place {
        value: word_of(x),
        tag: tag_of(x) as u8,
    }
}

#[tactic(auto, unfolding(rules::specs::Steps::given))]
fn opened(x: u64) -> Result<Place, Stop>
    requires { x < 9223372036854775808 → tag_in x < 256 }
    ensures { result ≡ opened_of x }
{
    if FAULT <= x {
        return Err(stop_of(x));
    }
    Ok(place_of(x))
}

// ---- tags and places

pub fn join(t: &Tables, a: u32, b: u32) -> u32
    requires { (a < 16) × (b < 16) }
    ensures { result ≡ join_in t.now a b }
{
    u32::from(t.joins[16 * (a as usize) + (b as usize)])
}

pub fn tag_at(u: &[u64; 2112], i: usize) -> u32
    requires { i < 2112 }
    ensures { result ≡ tag_in (get_or u.now i 0) }
{
    tag_of(u[i])
}

// ---- operators

// A word with the tag of x.
fn one(w: u32, x: u64) -> u64
    ensures { result ≡ w + 4294967296 * tag_in x }
{
    answer(w, tag_of(x))
}

// A word with the tags of x and y joined.
fn both(t: &Tables, w: u32, x: u64, y: u64) -> u64
    requires { (tag_in x < 16) × (tag_in y < 16) }
    ensures { result ≡ w + 4294967296 * join_in t.now (tag_in x) (tag_in y) }
{
    answer(w, join(t, tag_of(x), tag_of(y)))
}

fn cell(t: &Tables, u: &[u64; 2112], x: u64) -> u64
    requires { CellAsked t.now u.now x }
    ensures { result ≡ cell_in t.now u.now x }
{
    if u32::from(t.cells) <= word_of(x) {
        return FAULT + Stop::Index as u64;
    }
    let i = usize::from(t.vars) + (word_of(x) as usize);
    both(t, word_of(u[i]), u[i], x)
}

fn has_two(k: Operator) -> bool
    ensures { result ≡ has_two k }
{
    match k {
        Operator::Cell | Operator::Negate | Operator::Not | Operator::Absolute => false,
        _ => true,
    }
}

// The operator k on x and, if it has two operands, y. One table, so that one jump finds it.
#[tactic(auto, unfolding(rules::specs::Steps::given, rules::specs::Memory::value_of, rules::specs::Memory::tag_of, rules::specs::Operators::unary, rules::specs::Operators::binary, rules::specs::Operators::divides, rules::specs::Ends::stop_number))]
fn apply(t: &Tables, u: &[u64; 2112], k: Operator, x: u64, y: u64) -> u64
    requires { Applies t.now u.now k x y }
    ensures { result ≡ applied_in t.now u.now k x y }
{
    let a = word_of(x);
    let b = word_of(y);
    match k {
        Operator::Cell => cell(t, u, x),
        Operator::Negate => one(words::neg(a), x),
        Operator::Not => one(words::not(a), x),
        Operator::Absolute => one(words::abs(a), x),
        Operator::Add => both(t, words::add(a, b), x, y),
        Operator::Sub => both(t, words::sub(a, b), x, y),
        Operator::Mul => both(t, words::mul(a, b), x, y),
        Operator::Div => {
            if b == 0 {
                return FAULT + Stop::Divisor as u64;
            }
            both(t, words::div(a, b), x, y)
        }
        Operator::Rem => {
            if b == 0 {
                return FAULT + Stop::Divisor as u64;
            }
            both(t, words::rem(a, b), x, y)
        }
        Operator::Less => both(t, words::is_less(a, b), x, y),
        Operator::LessEq => both(t, words::is_less_equal(a, b), x, y),
        Operator::Equal => both(t, words::is_equal(a, b), x, y),
        Operator::NotEqual => both(t, words::is_not_equal(a, b), x, y),
    }
}

// ---- expressions by their numbers

// A constant or a variable.
#[tactic(auto, using(crate::proofs::Values::leaf_place, crate::proofs::Values::leaf_value))]
fn leaf(t: &Tables, u: &[u64; 2112], e: usize) -> u64
    requires { ExprGiven t.now u.now e × ((expr_node t.now e).form ≡ Leaf) }
    ensures { Answered t.now u.now e result }
{
    u[t.exprs[e].first as usize]
}

// The operands are leaves, named by their places. What has no second operand names place 0 there.
#[tactic(auto, using(crate::proofs::Values::left_place, crate::proofs::Values::right_place, crate::proofs::Values::flat_asks))]
fn flat(t: &Tables, u: &[u64; 2112], e: usize) -> u64
    requires { ExprGiven t.now u.now e × ((expr_node t.now e).form ≡ Flat) }
    ensures { Answered t.now u.now e result }
{
    let a = t.exprs[e].first as usize;
    let b = t.exprs[e].second as usize;
    apply(t, u, t.exprs[e].operator, u[a], u[b])
}

#[cycle(deep_operand)]
fn operand(t: &Tables, u: &[u64; 2112], e: usize) -> u64
    requires { ExprGiven t.now u.now e }
    ensures { Answered t.now u.now e result }
{
    match t.exprs[e].form {
        Form::Leaf => leaf(t, u, e),
        Form::Flat => flat(t, u, e),
        Form::Deep => deep(t, u, e),
    }
}

// Operands have lower numbers than their user, so the expression's own number falls.
#[cycle(deep_operand)]
#[tactic(auto, using(crate::proofs::Values::left_lower, crate::proofs::Values::left_there, crate::proofs::Values::right_lower, crate::proofs::Values::right_there, crate::proofs::Values::one_asks))]
fn deep(t: &Tables, u: &[u64; 2112], e: usize) -> u64
    requires { ExprGiven t.now u.now e × ((expr_node t.now e).form ≡ Deep) }
    ensures { Answered t.now u.now e result }
{
    let k = t.exprs[e].operator;
    let x = operand(t, u, t.exprs[e].first as usize);
    if FAULT <= x {
        return x;
    }
    if !has_two(k) {
        return apply(t, u, k, x, x);
    }
    let y = operand(t, u, t.exprs[e].second as usize);
    if FAULT <= y {
        return y;
    }
    apply(t, u, k, x, y)
}

// Like operand, but no part of the recursion, so that it costs its callers no saved registers. A leaf is never a fault.
pub fn value(t: &Tables, u: &[u64; 2112], e: usize) -> Result<Place, Stop>
    requires { ExprGiven t.now u.now e }
    ensures { Evaluated t.now u.now e result }
{
    match t.exprs[e].form {
        Form::Leaf => Ok(place_of(leaf(t, u, e))),
        Form::Flat => opened(flat(t, u, e)),
        Form::Deep => opened(deep(t, u, e)),
    }
}
