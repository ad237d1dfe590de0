// The C host's entries, the only exports: include/vraduceni.h declares them. What they do is in crate vraduceni.
#![tactic(auto)]

ghost use Rattle.std.specs.Prelude.{◌≡◌};
ghost use Rattle.rules.specs.Judged.{hosted, house_asked};
ghost use Rattle.vraduceni.specs.Hosts.{Finds};

#[unsafe(no_mangle)]
pub extern "C" fn vraduceni_judge(
    recipe: &[u8],
    policy: &[u8],
    memory: &mut [u8],
    records: &mut [u8],
    report: &mut [u8],
    budget: u32,
) -> u32
    ensures { Finds result memory.new records.new report.new (hosted recipe.now policy.now memory.old records.old report.old budget) }
{
    vraduceni::vraduceni_judge(recipe, policy, memory, records, report, budget)
}

#[unsafe(no_mangle)]
pub extern "C" fn vraduceni_house_policy(out: &mut [u8]) -> u32
    ensures { (result ≡ (house_asked out.old).number) × (out.new ≡ (house_asked out.old).buffer) }
{
    vraduceni::vraduceni_house_policy(out)
}
