// Places, records and the report's numbers as bytes, and the memory's check.
#![tactic(auto)]

ghost use Rattle.std.specs.Prelude.{◌≡◌, ◌+◌, ◌*◌, ◌^◌, ◌<◌, length};
ghost use Rattle.rules.specs.Bytes.{byte, whole};
ghost use Rattle.rules.specs.Recipe.{Recipe};
ghost use Rattle.rules.specs.Memory.{◌#◌, check_memory};
ghost use Rattle.memory.specs.Layout.{stored, stored_half, placed, recorded};

use rules::{Checked, Place, Refusal};

// ---- numbers

#[tactic(auto, using(crate::proofs::Stored::half_part))]
pub fn put_half(b: &mut [u8], o: usize, h: usize)
    requires { (o + 1 < length b.old) × (h < 65536) }
    ensures { b.new ≡ stored_half b.old o h }
{
    b[o..o + 2].copy_from_slice(&(h as u16).to_le_bytes());
}

#[tactic(auto, using(crate::proofs::Stored::word_part))]
pub fn put_word(b: &mut [u8], o: usize, w: u32)
    requires { o + 3 < length b.old }
    ensures { b.new ≡ stored b.old o w }
{
    b[o..o + 4].copy_from_slice(&w.to_le_bytes());
}

// ---- records

#[tactic(auto, unfolding(crate::specs::Layout::recorded))]
pub fn put_record(b: &mut [u8], o: usize, port: u8, w: u32)
    requires { o + 4 < length b.old }
    ensures { b.new ≡ recorded b.old o port w }
{
    b[o] = port;
    put_word(b, o + 1, w);
}

// ---- places

pub fn place_at(m: &[u8], i: usize) -> Place
    requires { 5 * i + 4 < length m.now }
    ensures { result ≡ whole m.now (5 * i) # byte m.now (5 * i + 4) }
{
    let o = 5 * i;
    Place {
        value: tables::word_at(m, o),
        tag: m[o + 4],
    }
}

// The bound of the value is for the caller: a place is read back as it was only below it.
#[tactic(auto, unfolding(crate::specs::Layout::placed, rules::specs::Memory::value_of, rules::specs::Memory::tag_of))]
pub fn put_place(m: &mut [u8], i: usize, q: Place)
    requires { 5 * i + 4 < length m.old }
    ensures { (m.new ≡ placed m.old i q) × (q.value < 2 ^ 32) }
{
    let o = 5 * i;
    put_word(m, o, q.value);
    m[o + 4] = q.tag;
}

// ---- the memory's check

// The length is compared by division, since five times a count of any size does not fit.
pub fn check_memory(m: &[u8], count: usize, tags: u8) -> Checked
    ensures { (R : Recipe) → R.vars + R.cells ≡ count → result ≡ check_memory R tags m.now }
{
    if m.len() / 5 != count || m.len() % 5 != 0 {
        return Err(Refusal::MemoryLength);
    }
    for i in 0..count {
        if tags <= m[5 * i + 4] {
            return Err(Refusal::MemoryTag(i));
        }
    }
    Ok(())
}
