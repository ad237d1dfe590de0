// Policies: the check of a table of tags, what an accepted one answers, and the house policy.
#![tactic(auto)]

ghost use Rattle.std.specs.Prelude.{◌≡◌, ◌+◌, ◌*◌, ◌<◌, ◌≤◌};
ghost use Rattle.rules.specs.Bytes.{byte};
ghost use Rattle.rules.specs.Checks.{up_to};
ghost use Rattle.rules.specs.Policy.{policy_of, policy_header_ok, check_entry, laws_ok, check_policy};
ghost use Rattle.rules.specs.Accepted.{LawfulPolicy};
ghost use Rattle.rules.specs.Judged.{house_fits, house_asked};
ghost use Rattle.policy.specs.Shape.{Headed, Filled};
ghost use Rattle.policy.specs.Laws.{pair_laws, associates};

use rules::{Checked, Refusal};

// ---- entries

// Where entry (t,u) stands; on its own, so that the bound of the product is shown once.
fn spot(n: usize, t: usize, u: usize) -> usize
    requires { (n ≤ 16) × (t < n) × (u < n) }
    ensures { (result ≡ 8 + t * n + u) × (result < 8 + n * n) }
{
    8 + t * n + u
}

// Asks for no law, so that the check of the laws can use it.
#[tactic(auto, using(crate::proofs::Shape::join_below))]
fn entry(p: &[u8], t: u8, u: u8) -> u8
    requires { (Filled p.now) × (t < byte p.now 6) × (u < byte p.now 6) }
    ensures { (result ≡ (policy_of p.now).join t u) × (result < byte p.now 6) }
{
    p[spot(usize::from(p[6]), usize::from(t), usize::from(u))]
}

// Where the clearances begin.
fn ports_from(n: usize) -> usize
    requires { n ≤ 16 }
    ensures { (result ≡ 8 + n * n) × (result ≤ 264) }
{
    8 + n * n
}

// ---- an accepted policy

pub fn join(p: &[u8], a: u8, b: u8) -> u8
    requires { (LawfulPolicy p.now) × (a < byte p.now 6) × (b < byte p.now 6) }
    ensures { (result ≡ (policy_of p.now).join a b) × (result < byte p.now 6) }
{
    entry(p, a, b)
}

#[tactic(auto, using(crate::proofs::Shape::clearance_below))]
pub fn clearance(p: &[u8], port: u8) -> u8
    requires { (LawfulPolicy p.now) × (port < byte p.now 7) }
    ensures { (result ≡ (policy_of p.now).clearance port) × (result < byte p.now 6) }
{
    p[ports_from(usize::from(p[6])) + usize::from(port)]
}

// ---- the check

// Bytes are read only where the header is there; the length comes last, since it is made of the counts.
#[tactic(auto, using(crate::proofs::Shape::many_tags), unfolding(rules::specs::Policy::policy_header_ok))]
fn header_ok(p: &[u8]) -> bool
    ensures { result ≡ policy_header_ok p.now }
{
    if p.len() < 8 {
        return false;
    }
    let n = usize::from(p[6]);
    let ports = usize::from(p[7]);
    p.starts_with(b"RJP")
        && tables::half_at(p, 3) == 1
        && p[5] == 0
        && 1 <= n
        && n <= 16
        && ports <= 16
        && p.len() == ports_from(n) + ports
}

// Joins and clearances alike, upwards: the first that is no tag is the one reported.
#[tactic(auto, using(rules::proofs::Checks::up_none, rules::proofs::Checks::up_more, rules::proofs::Checks::up_stops, rules::proofs::Checks::passes, rules::proofs::Checks::fails))]
fn check_entries(p: &[u8]) -> Checked
    requires { Headed p.now }
    ensures { result ≡ up_to (byte p.now 6 * byte p.now 6 + byte p.now 7) (check_entry p.now) }
{
    let n = p[6];
    for (i, &x) in p[8..].iter().enumerate() {
        if n <= x {
            return Err(Refusal::PolicyEntry(8 + i));
        }
    }
    Ok(())
}

#[tactic(auto, unfolding(crate::specs::Laws::pair_laws))]
fn pair_ok(p: &[u8], t: u8, u: u8) -> bool
    requires { (Filled p.now) × (t < byte p.now 6) × (u < byte p.now 6) }
    ensures { result ≡ pair_laws (policy_of p.now) t u }
{
    entry(p, t, u) == entry(p, u, t) && entry(p, t, t) == t && entry(p, 0, t) == t
}

fn associates(p: &[u8], t: u8, u: u8, w: u8) -> bool
    requires { (Filled p.now) × (t < byte p.now 6) × (u < byte p.now 6) × (w < byte p.now 6) }
    ensures { result ≡ associates (policy_of p.now) t u w }
{
    let tu = entry(p, t, u);
    let uw = entry(p, u, w);
    entry(p, tu, w) == entry(p, t, uw)
}

// Three loops over the tags, left from the innermost at the first broken law. The laws that need no third tag are tested
// outside it, where once for each pair is enough.
#[tactic(auto, using(crate::proofs::Laws::law_holds, crate::proofs::Laws::no_pair, crate::proofs::Laws::no_triple, crate::proofs::Laws::laws_hold, crate::proofs::Laws::law_broken))]
fn laws_ok(p: &[u8]) -> bool
    requires { Filled p.now }
    ensures { result ≡ laws_ok (policy_of p.now) }
{
    let n = p[6];
    let mut ok = true;
    'laws: for t in 0..n {
        for u in 0..n {
            if !pair_ok(p, t, u) {
                ok = false;
                break 'laws;
            }
            for w in 0..n {
                if !associates(p, t, u, w) {
                    ok = false;
                    break 'laws;
                }
            }
        }
    }
    ok
}

// The first refusal in the order 23, 24, 25.
#[tactic(auto, using(crate::proofs::Shape::headed, crate::proofs::Shape::filled, rules::proofs::Checks::next, rules::proofs::Checks::stops, rules::proofs::Checks::passes, rules::proofs::Checks::fails), unfolding(rules::specs::Policy::check_policy))]
pub fn check_policy(p: &[u8]) -> Checked
    ensures { result ≡ check_policy p.now }
{
    if !header_ok(p) {
        return Err(Refusal::PolicyHeader);
    }
    check_entries(p)?;
    if !laws_ok(p) {
        return Err(Refusal::PolicyLaw);
    }
    Ok(())
}

// ---- the house policy

const HOUSE_HEADER: [u8; 8] = *b"RJP\x01\x00\x00\x10\x02";

// Row a, column b: the union of the sets a and b of cameras. A byte string, since it keeps the rows.
const HOUSE_JOINS: [u8; 256] = *b"\
    \x00\x01\x02\x03\x04\x05\x06\x07\x08\x09\x0a\x0b\x0c\x0d\x0e\x0f\
    \x01\x01\x03\x03\x05\x05\x07\x07\x09\x09\x0b\x0b\x0d\x0d\x0f\x0f\
    \x02\x03\x02\x03\x06\x07\x06\x07\x0a\x0b\x0a\x0b\x0e\x0f\x0e\x0f\
    \x03\x03\x03\x03\x07\x07\x07\x07\x0b\x0b\x0b\x0b\x0f\x0f\x0f\x0f\
    \x04\x05\x06\x07\x04\x05\x06\x07\x0c\x0d\x0e\x0f\x0c\x0d\x0e\x0f\
    \x05\x05\x07\x07\x05\x05\x07\x07\x0d\x0d\x0f\x0f\x0d\x0d\x0f\x0f\
    \x06\x07\x06\x07\x06\x07\x06\x07\x0e\x0f\x0e\x0f\x0e\x0f\x0e\x0f\
    \x07\x07\x07\x07\x07\x07\x07\x07\x0f\x0f\x0f\x0f\x0f\x0f\x0f\x0f\
    \x08\x09\x0a\x0b\x0c\x0d\x0e\x0f\x08\x09\x0a\x0b\x0c\x0d\x0e\x0f\
    \x09\x09\x0b\x0b\x0d\x0d\x0f\x0f\x09\x09\x0b\x0b\x0d\x0d\x0f\x0f\
    \x0a\x0b\x0a\x0b\x0e\x0f\x0e\x0f\x0a\x0b\x0a\x0b\x0e\x0f\x0e\x0f\
    \x0b\x0b\x0b\x0b\x0f\x0f\x0f\x0f\x0b\x0b\x0b\x0b\x0f\x0f\x0f\x0f\
    \x0c\x0d\x0e\x0f\x0c\x0d\x0e\x0f\x0c\x0d\x0e\x0f\x0c\x0d\x0e\x0f\
    \x0d\x0d\x0f\x0f\x0d\x0d\x0f\x0f\x0d\x0d\x0f\x0f\x0d\x0d\x0f\x0f\
    \x0e\x0f\x0e\x0f\x0e\x0f\x0e\x0f\x0e\x0f\x0e\x0f\x0e\x0f\x0e\x0f\
    \x0f\x0f\x0f\x0f\x0f\x0f\x0f\x0f\x0f\x0f\x0f\x0f\x0f\x0f\x0f\x0f";

// Verdict and alarm.
const HOUSE_CLEARANCES: [u8; 2] = [0, 15];

// Refused where the buffer is too short, with nothing written.
#[tactic(auto, using(crate::proofs::House::no_room, crate::proofs::House::room), unfolding(rules::specs::Checks::require))]
pub fn house_policy(out: &mut [u8]) -> Checked
    ensures { (result ≡ house_fits out.old) × (out.new ≡ (house_asked out.old).buffer) }
{
    if out.len() < 266 {
        return Err(Refusal::HouseRoom);
    }
    out[..8].copy_from_slice(&HOUSE_HEADER);
    out[8..264].copy_from_slice(&HOUSE_JOINS);
    out[264..266].copy_from_slice(&HOUSE_CLEARANCES);
    Ok(())
}
