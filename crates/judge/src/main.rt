// The thin program: reads recipe.bin, policy.bin and memory.bin, runs them, and prints end, place, steps and records.
#![tactic(auto)]

ghost use Rattle.std.specs.Prelude.{◌≡◌, ◌≤◌, length, take};

use rules::Outcome;
use std::fs::File;
use std::io;
use std::io::Read;
use std::rt::Files;

// What the file holds, as far as the buffer goes; a missing file counts as empty, and a failed read as the file's end. Each
// buffer has one byte more than the longest accepted length, so that a longer file is refused as any longer buffer is.
fn load(rt: &impl Files, path: &str, buf: &mut [u8]) -> usize
    ensures { (result ≤ length buf.new) × (result ≡ length (take result buf.new)) }
{
    let Ok(mut file) = File::open(rt, path) else {
        return 0;
    };
    let mut n = 0;
    while n < buf.len() {
        match file.read(&mut buf[n..]) {
            Ok(0) | Err(_) => break,
            Ok(more) => n += more,
        }
    }
    n
}

fn main(rt: HostRuntime) -> io::Result<()> {
    let mut recipe = [0u8; 12305];
    let mut policy = [0u8; 281];
    let mut memory = [0u8; 5441];
    let mut room = [0u8; 320];
    let r = load(&rt, "recipe.bin", &mut recipe);
    let p = load(&rt, "policy.bin", &mut policy);
    let m = load(&rt, "memory.bin", &mut memory);
    let Outcome {
        end,
        steps,
        records,
    } = machine::judge(
        &recipe[..r],
        &policy[..p],
        &mut memory[..m],
        &mut room,
        10000,
    );
    let number = ends::end_number(end);
    let place = ends::end_place(end);
    println!(rt; "{number} {place} {steps} {records}")
}
