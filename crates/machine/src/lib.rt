// The run of accepted tables, and the library's entry, which checks everything and runs.
#![tactic(auto)]

ghost use Rattle.std.specs.Prelude.{◌≡◌, ◌+◌, ◌*◌, ◌/◌, ◌%◌, ◌<◌, length};
ghost use Rattle.rules.specs.Judged.{outcome_of, written_back, ran, checks, judged};
ghost use Rattle.rules.specs.Accepted.{Accepted};
ghost use Rattle.layout.specs.Tables.{stmt_record};
ghost use Rattle.machine.specs.Turns.{LeftAs, RunGiven, RunLeaves};

use layout::Tables;
use rules::{Checked, End, Outcome, Refusal, Stop};

// The kinds of frames, beside the statements' kinds 0 to 6.
const NEXT: u32 = 7;

const JOIN: u32 = 8;

const LOOP: u32 = 9;

const EMPTY: u32 = 81920;

// The stack's words; under the frames lies an empty word, which ends the run when it is taken.
#[derive(Clone, Copy)]
pub struct State {
    pub stack: [u32; 513],
}

// ---- frames

fn frame_word(kind: u32, s: usize, tag: u32) -> u32
    requires { (kind < 16) × (s < 512) × (tag < 16) }
    ensures { result ≡ 8192 * kind + 16 * s + tag }
{
    8192 * kind + 16 * (s as u32) + tag
}

// The kind of a frame, and the statement that it names.
fn frame_in(w: u32) -> (usize, usize)
    ensures { (result.0 ≡ w / 8192) × (result.1 ≡ w / 16 % 512) }
{
    ((w / 8192) as usize, (w / 16 % 512) as usize)
}

fn tag_in(w: u32) -> u32
    ensures { result ≡ w % 16 }
{
    w % 16
}

// ---- statements by their numbers

fn kind_at(t: &Tables, s: usize) -> usize
    requires { s < 512 }
    ensures { result ≡ (stmt_record t.now s).kind }
{
    t.stmts[s].kind as usize
}

fn stopped(h: Stop, s: usize, steps: u32, records: u32) -> Outcome
    ensures { result ≡ outcome_of (End.Stopped h s) steps records }
{
    Outcome {
        end: End::Stopped(h, s),
        steps,
        records,
    }
}

// ---- the run

// One turn of the loop is one step. kind and s say what is done next: statement s of that kind is begun, or the top frame of
// that kind, which names s, is taken. No arm goes back to the top by itself: with one way back the compiler keeps one loop.
fn run(t: &Tables, u: &mut [u64; 2112], limit: usize, q: &mut [u8], budget: u32) -> Outcome
    requires { RunGiven t.now u.old limit }
    ensures { RunLeaves t.now u.old limit q.old budget result u.new q.new }
{
    let mut x = State {
        stack: [EMPTY; 513],
    };
    let mut depth: usize = 0;
    let mut s: usize = limit - 1;
    let mut kind: usize = kind_at(t, s);
    let mut tag: u32 = 0;
    let mut records: u32 = 0;
    for step in 0..budget {
        match kind {
            0 => {
                (kind, s) = frame_in(x.stack[depth]);
            }
            1 => {
                let v = match eval::value(t, u, t.stmts[s].second as usize) {
                    Ok(v) => v,
                    Err(h) => return stopped(h, s, step + 1, records),
                };
                if let Err(h) = steps::assign(t, u, tag, t.stmts[s].first as usize, v) {
                    return stopped(h, s, step + 1, records);
                }
                (kind, s) = frame_in(x.stack[depth]);
            }
            2 => {
                if let Err(h) = steps::store(
                    t,
                    u,
                    tag,
                    t.stmts[s].first as usize,
                    t.stmts[s].second as usize,
                ) {
                    return stopped(h, s, step + 1, records);
                }
                (kind, s) = frame_in(x.stack[depth]);
            }
            3 => {
                if limit <= depth {
                    return stopped(Stop::Frames, s, step + 1, records);
                }
                depth += 1;
                x.stack[depth] = frame_word(NEXT, t.stmts[s].second as usize, 0);
                s = t.stmts[s].first as usize;
                kind = kind_at(t, s);
            }
            4 => {
                let v = match eval::value(t, u, t.stmts[s].first as usize) {
                    Ok(v) => v,
                    Err(h) => return stopped(h, s, step + 1, records),
                };
                if limit <= depth {
                    return stopped(Stop::Frames, s, step + 1, records);
                }
                depth += 1;
                x.stack[depth] = frame_word(JOIN, 0, tag);
                tag = eval::join(t, tag, u32::from(v.tag));
                if v.value == 0 {
                    s = t.stmts[s].third as usize;
                    kind = kind_at(t, s);
                } else {
                    s = t.stmts[s].second as usize;
                    kind = kind_at(t, s);
                }
            }
            5 => {
                let v = match eval::value(t, u, t.stmts[s].first as usize) {
                    Ok(v) => v,
                    Err(h) => return stopped(h, s, step + 1, records),
                };
                if v.value == 0 {
                    (kind, s) = frame_in(x.stack[depth]);
                } else {
                    if limit <= depth {
                        return stopped(Stop::Frames, s, step + 1, records);
                    }
                    depth += 1;
                    x.stack[depth] = frame_word(LOOP, s, tag);
                    tag = eval::join(t, tag, u32::from(v.tag));
                    s = t.stmts[s].second as usize;
                    kind = kind_at(t, s);
                }
            }
            6 => {
                let v = match eval::value(t, u, t.stmts[s].first as usize) {
                    Ok(v) => v,
                    Err(h) => return stopped(h, s, step + 1, records),
                };
                let port = t.stmts[s].second as usize;
                if !steps::may_emit(t, tag, port, v) {
                    return stopped(Stop::EmitTag, s, step + 1, records);
                }
                let o = 5 * (records as usize);
                if q.len() < o + 5 {
                    return stopped(Stop::Room, s, step + 1, records);
                }
                memory::put_record(q, o, port as u8, v.value);
                records += 1;
                (kind, s) = frame_in(x.stack[depth]);
            }
            7 => {
                depth -= 1;
                kind = kind_at(t, s);
            }
            8 => {
                tag = tag_in(x.stack[depth]);
                depth -= 1;
                (kind, s) = frame_in(x.stack[depth]);
            }
            9 => {
                let v = match eval::value(t, u, t.stmts[s].first as usize) {
                    Ok(v) => v,
                    Err(h) => return stopped(h, s, step + 1, records),
                };
                if v.value == 0 {
                    tag = tag_in(x.stack[depth]);
                    depth -= 1;
                    (kind, s) = frame_in(x.stack[depth]);
                } else {
                    tag = eval::join(t, tag, u32::from(v.tag));
                    s = t.stmts[s].second as usize;
                    kind = kind_at(t, s);
                }
            }
            _ => {
                return Outcome {
                    end: End::Done,
                    steps: step,
                    records,
                };
            }
        }
    }
    Outcome {
        end: if kind == 10 { End::Done } else { End::Budget },
        steps: budget,
        records,
    }
}

// Accepted tables are decoded once; the memory's bytes are written when the run has ended.
fn run_accepted(r: &[u8], p: &[u8], m: &mut [u8], q: &mut [u8], budget: u32) -> Outcome
    requires { Accepted r.now p.now m.old }
    ensures { LeftAs result m.new q.new (written_back q.old (ran r.now p.now m.old (length q.old) budget)) }
{
    let mut t = Tables::empty();
    let mut u = [0u64; 2112];
    decode::decode(r, p, &mut t);
    decode::load(r, m, &mut u);
    let o = run(&t, &mut u, tables::half_at(r, 8), q, budget);
    decode::write_back(&u, tables::half_at(r, 10) + tables::half_at(r, 12), m);
    o
}

// ---- the library's entry

fn refuse(x: Refusal) -> Outcome
    ensures { result ≡ outcome_of (End.Refused x) 0 0 }
{
    Outcome {
        end: End::Refused(x),
        steps: 0,
        records: 0,
    }
}

// Everything is checked, in document 01's order, before anything is changed.
#[tactic(auto, using(rules::proofs::Checks::next, rules::proofs::Checks::stops), unfolding(rules::specs::Judged::checks))]
pub fn check(r: &[u8], p: &[u8], m: &[u8]) -> Checked
    ensures { result ≡ checks r.now p.now m.now }
{
    recipe::check_recipe(r)?;
    policy::check_policy(p)?;
    recipe::check_ports(r, p[7])?;
    memory::check_memory(m, tables::half_at(r, 10) + tables::half_at(r, 12), p[6])
}

// Recipe, policy, memory, record room and budget: a refusal, or the run.
pub fn judge(r: &[u8], p: &[u8], m: &mut [u8], q: &mut [u8], budget: u32) -> Outcome
    ensures { LeftAs result m.new q.new (judged r.now p.now m.old q.old budget) }
{
    match check(r, p, m) {
        Ok(()) => run_accepted(r, p, m, q, budget),
        Err(x) => refuse(x),
    }
}
