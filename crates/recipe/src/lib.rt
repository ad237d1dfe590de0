// The check of a recipe by itself (16 to 22), and of its ports against a policy (26).
#![tactic(auto)]

ghost use Rattle.std.specs.Prelude.{◌≡◌, ◌+◌, ◌*◌, ◌≤◌, length};
ghost use Rattle.rules.specs.Checks.{up_to};
ghost use Rattle.rules.specs.Recipe.{recipe_of, mark_ok, zeros_ok, counts_ok, expr_ok, spread, check_expr, stmt_ok, check_stmt, check_header, check_recipe, port_ok, check_ports};
ghost use Rattle.rules.specs.Accepted.{WellFormed};
ghost use Rattle.recipe.specs.Reached.{Reached};

use rules::{Checked, Expr, Refusal, Stmt};
use tables::{expr_at, half_at, stmt_at};

// ---- the header

#[tactic(auto, unfolding(rules::specs::Recipe::mark_ok))]
fn mark_ok(r: &[u8]) -> bool
    requires { 16 ≤ length r.now }
    ensures { result ≡ mark_ok r.now }
{
    r.starts_with(b"RJR")
}

#[tactic(auto, unfolding(rules::specs::Recipe::zeros_ok))]
fn zeros_ok(r: &[u8]) -> bool
    requires { 16 ≤ length r.now }
    ensures { result ≡ zeros_ok r.now }
{
    r[5] == 0 && half_at(r, 14) == 0
}

#[tactic(auto, unfolding(rules::specs::Recipe::counts_ok))]
fn counts_ok(r: &[u8]) -> bool
    requires { 16 ≤ length r.now }
    ensures { result ≡ counts_ok (recipe_of r.now) }
{
    let stmts = half_at(r, 8);
    half_at(r, 6) <= 1024
        && 1 <= stmts
        && stmts <= 512
        && half_at(r, 10) <= 64
        && half_at(r, 12) <= 1024
}

#[tactic(auto, using(crate::proofs::Order::too_short, crate::proofs::Order::no_mark, crate::proofs::Order::no_version, crate::proofs::Order::no_zeros, crate::proofs::Order::no_counts, crate::proofs::Order::no_length, crate::proofs::Order::header))]
fn check_header(r: &[u8]) -> Checked
    ensures { result ≡ check_header r.now }
{
    if r.len() < 16 {
        return Err(Refusal::RecipeLength);
    }
    if !mark_ok(r) {
        return Err(Refusal::RecipeMark);
    }
    if half_at(r, 3) != 1 {
        return Err(Refusal::RecipeVersion);
    }
    if !zeros_ok(r) {
        return Err(Refusal::RecipeHeader);
    }
    if !counts_ok(r) {
        return Err(Refusal::RecipeHeader);
    }
    if r.len() != 16 + 8 * half_at(r, 6) + 8 * half_at(r, 8) {
        return Err(Refusal::RecipeLength);
    }
    Ok(())
}

// ---- expressions

#[tactic(auto, unfolding(rules::specs::Recipe::expr_ok))]
fn expr_ok(x: Expr, vars: usize, e: usize) -> bool
    ensures { result ≡ expr_ok vars e x }
{
    match x {
        Expr::Constant(_) => true,
        Expr::Variable(i) => i < vars,
        Expr::Cell(i) => i < e,
        Expr::Unary(_, a) => a < e,
        Expr::Binary(_, a, b) => a < e && b < e,
        Expr::BadExpr => false,
    }
}

// A shared operand is counted at each use, so this makes as many calls as the spread is wide. Every expression below e
// is narrow already, which bounds the calls by 513 and keeps the sum in range.
#[tactic(auto, using(crate::proofs::Spreads::lower, crate::proofs::Spreads::operands, crate::proofs::Spreads::spread_is), unfolding(rules::specs::Recipe::spread_by))]
fn spread(r: &[u8], e: usize) -> usize
    requires { Reached r.now e }
    ensures { result ≡ spread (recipe_of r.now) e }
{
    let x = expr_at(r, e);
    match x {
        Expr::Constant(_) => 1,
        Expr::Variable(_) => 1,
        Expr::Cell(i) => 1 + spread(r, i),
        Expr::Unary(_, a) => 1 + spread(r, a),
        Expr::Binary(_, a, b) => 1 + spread(r, a) + spread(r, b),
        Expr::BadExpr => 1,
    }
}

#[tactic(auto, using(rules::proofs::Checks::up_none, rules::proofs::Checks::up_more, rules::proofs::Checks::up_stops, rules::proofs::Checks::passes, rules::proofs::Checks::fails, crate::proofs::Order::finished, rules::proofs::Checks::both_pass, rules::proofs::Checks::stops, crate::proofs::Spreads::too_wide, crate::proofs::Spreads::reached))]
fn check_exprs(r: &[u8]) -> Checked
    requires { 16 + 8 * (recipe_of r.now).exprs ≤ length r.now }
    ensures { result ≡ up_to (recipe_of r.now).exprs (check_expr (recipe_of r.now)) }
{
    let exprs = half_at(r, 6);
    let vars = half_at(r, 10);
    for e in 0..exprs {
        if !expr_ok(expr_at(r, e), vars, e) {
            return Err(Refusal::BadExpression(e));
        }
        if 256 < spread(r, e) {
            return Err(Refusal::WideExpression(e));
        }
    }
    Ok(())
}

// ---- statements

#[tactic(auto, unfolding(rules::specs::Recipe::stmt_ok))]
fn stmt_ok(x: Stmt, vars: usize, exprs: usize, s: usize) -> bool
    ensures { result ≡ stmt_ok vars exprs s x }
{
    match x {
        Stmt::Skip => true,
        Stmt::Assign(i, a) => i < vars && a < exprs,
        Stmt::Store(i, a) => i < exprs && a < exprs,
        Stmt::Then(a, b) => a < s && b < s,
        Stmt::If(a, b, c) => a < exprs && b < s && c < s,
        Stmt::While(a, b) => a < exprs && b < s,
        Stmt::Emit(_, a) => a < exprs,
        Stmt::BadStmt => false,
    }
}

#[tactic(auto, using(rules::proofs::Checks::up_none, rules::proofs::Checks::up_more, rules::proofs::Checks::up_stops, rules::proofs::Checks::passes, rules::proofs::Checks::fails, crate::proofs::Order::finished))]
fn check_stmts(r: &[u8]) -> Checked
    requires { 16 + 8 * (recipe_of r.now).exprs + 8 * (recipe_of r.now).stmts ≤ length r.now }
    ensures { result ≡ up_to (recipe_of r.now).stmts (check_stmt (recipe_of r.now)) }
{
    let exprs = half_at(r, 6);
    let stmts = half_at(r, 8);
    let vars = half_at(r, 10);
    for s in 0..stmts {
        if !stmt_ok(stmt_at(r, s), vars, exprs, s) {
            return Err(Refusal::BadStatement(s));
        }
    }
    Ok(())
}

// ---- the whole check

#[tactic(auto, using(rules::proofs::Checks::next, rules::proofs::Checks::stops, crate::proofs::Order::exact), unfolding(rules::specs::Recipe::check_recipe))]
pub fn check_recipe(r: &[u8]) -> Checked
    ensures { result ≡ check_recipe r.now }
{
    check_header(r)?;
    check_exprs(r)?;
    check_stmts(r)
}

// ---- ports

#[tactic(auto, unfolding(rules::specs::Recipe::port_ok))]
fn port_ok(x: Stmt, ports: u8) -> bool
    ensures { result ≡ port_ok ports x }
{
    let Stmt::Emit(port, _) = x else {
        return true;
    };
    port < ports
}

#[tactic(auto, using(rules::proofs::Checks::up_none, rules::proofs::Checks::up_more, rules::proofs::Checks::up_stops, rules::proofs::Checks::passes, rules::proofs::Checks::fails, crate::proofs::Order::finished), unfolding(rules::specs::Recipe::check_ports))]
pub fn check_ports(r: &[u8], ports: u8) -> Checked
    requires { WellFormed r.now }
    ensures { result ≡ check_ports (recipe_of r.now) ports }
{
    let stmts = half_at(r, 8);
    for s in 0..stmts {
        if !port_ok(stmt_at(r, s), ports) {
            return Err(Refusal::BadPort(s));
        }
    }
    Ok(())
}
