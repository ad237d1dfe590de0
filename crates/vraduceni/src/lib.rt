// The C host's entries. Crate vraduceni_c exports them, and include/vraduceni.h declares them.
#![tactic(auto)]

ghost use Rattle.std.specs.Prelude.{◌≡◌, ◌<◌, ◌≤◌, ◌++◌, length, drop};
ghost use Rattle.rules.specs.Ends.{end_number, end_place};
ghost use Rattle.rules.specs.Judged.{host_budget, report_bytes, hosted, house_asked};
ghost use Rattle.vraduceni.specs.Hosts.{Finds};

use rules::{End, Outcome, Refusal};

// ---- the entries

// Budget 0 from the C host means the house budget.
fn host_budget(budget: u32) -> u32
    ensures { result ≡ host_budget budget }
{
    if budget == 0 { 10000 } else { budget }
}

// The report's first 12 bytes; the rest stays.
fn put_report(report: &mut [u8], o: Outcome)
    requires { (12 ≤ length report.old) × (end_number o.end < 65536) × (end_place o.end < 65536) }
    ensures { report.new ≡ report_bytes o ++ drop 12 report.old }
{
    memory::put_half(report, 0, ends::end_number(o.end) as usize);
    memory::put_half(report, 2, ends::end_place(o.end));
    memory::put_word(report, 4, o.steps);
    memory::put_word(report, 8, o.records);
}

pub fn vraduceni_judge(
    recipe: &[u8],
    policy: &[u8],
    memory: &mut [u8],
    records: &mut [u8],
    report: &mut [u8],
    budget: u32,
) -> u32
    ensures { Finds result memory.new records.new report.new (hosted recipe.now policy.now memory.old records.old report.old budget) }
{
    if report.len() < 12 {
        return ends::end_number(End::Refused(Refusal::ReportRoom));
    }
    let o = machine::judge(recipe, policy, memory, records, host_budget(budget));
    put_report(report, o);
    ends::end_number(o.end)
}

pub fn vraduceni_house_policy(out: &mut [u8]) -> u32
    ensures { (result ≡ (house_asked out.old).number) × (out.new ≡ (house_asked out.old).buffer) }
{
    match policy::house_policy(out) {
        Ok(()) => 0,
        Err(x) => ends::end_number(End::Refused(x)),
    }
}
