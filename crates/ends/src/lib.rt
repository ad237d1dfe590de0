// Document 01's number and place for every end and refusal.
#![tactic(auto)]

ghost use Rattle.std.specs.Prelude.{◌≡◌};
ghost use Rattle.rules.specs.Ends.{stop_number, refusal_number, refusal_place, end_number, end_place};

use rules::{End, Refusal, Stop};

#[tactic(auto, unfolding(rules::specs::Ends::stop_number))]
fn stop_number(h: Stop) -> u32
    ensures { result ≡ stop_number h }
{
    h as u32
}

#[tactic(auto, unfolding(rules::specs::Ends::refusal_number))]
fn refusal_number(x: Refusal) -> u32
    ensures { result ≡ refusal_number x }
{
    match x {
        Refusal::RecipeLength => 16,
        Refusal::RecipeMark => 17,
        Refusal::RecipeVersion => 18,
        Refusal::RecipeHeader => 19,
        Refusal::BadExpression(_) => 20,
        Refusal::WideExpression(_) => 21,
        Refusal::BadStatement(_) => 22,
        Refusal::PolicyHeader => 23,
        Refusal::PolicyEntry(_) => 24,
        Refusal::PolicyLaw => 25,
        Refusal::BadPort(_) => 26,
        Refusal::MemoryLength => 27,
        Refusal::MemoryTag(_) => 28,
        Refusal::HouseRoom => 29,
        Refusal::ReportRoom => 30,
    }
}

#[tactic(auto, unfolding(rules::specs::Ends::refusal_place))]
fn refusal_place(x: Refusal) -> usize
    ensures { result ≡ refusal_place x }
{
    match x {
        Refusal::BadExpression(e) => e,
        Refusal::WideExpression(e) => e,
        Refusal::BadStatement(s) => s,
        Refusal::PolicyEntry(i) => i,
        Refusal::BadPort(s) => s,
        Refusal::MemoryTag(i) => i,
        Refusal::RecipeLength => 0,
        Refusal::RecipeMark => 0,
        Refusal::RecipeVersion => 0,
        Refusal::RecipeHeader => 0,
        Refusal::PolicyHeader => 0,
        Refusal::PolicyLaw => 0,
        Refusal::MemoryLength => 0,
        Refusal::HouseRoom => 0,
        Refusal::ReportRoom => 0,
    }
}

#[tactic(auto, unfolding(rules::specs::Ends::end_number))]
pub fn end_number(e: End) -> u32
    ensures { result ≡ end_number e }
{
    match e {
        End::Done => 0,
        End::Budget => 1,
        End::Stopped(h, _) => stop_number(h),
        End::Refused(x) => refusal_number(x),
    }
}

#[tactic(auto, unfolding(rules::specs::Ends::end_place))]
pub fn end_place(e: End) -> usize
    ensures { result ≡ end_place e }
{
    match e {
        End::Done => 0,
        End::Budget => 0,
        End::Stopped(_, s) => s,
        End::Refused(x) => refusal_place(x),
    }
}
