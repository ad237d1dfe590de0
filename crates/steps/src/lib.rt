// Writing a place and the right to emit: what a statement asks of the places is done here, and what stands in its way is told.
#![tactic(auto)]

ghost use Rattle.std.specs.Prelude.{◌≡◌, ◌+◌, ◌*◌, ◌<◌, set};
ghost use Rattle.layout.specs.Tables.{join_in, clearance_in};
ghost use Rattle.steps.specs.Asks.{Assigned, Stored, StoredAt, may_emit, AssignGiven, StoreGiven, CellGiven};

use layout::Tables;
use rules::{Place, Stop};

fn put_place(u: &mut [u64; 2112], i: usize, w: u32, g: u32)
    requires { i < 2112 }
    ensures { u.new ≡ set u.old i (w + 4294967296 * g) }
{
    u[i] = eval::answer(w, g);
}

// Gives the end that forbids the assignment, if one does.
pub fn assign(t: &Tables, u: &mut [u64; 2112], tag: u32, i: usize, v: Place) -> Result<(), Stop>
    requires { AssignGiven t.now u.old tag i v }
    ensures { Assigned t.now u.old tag i v result u.new }
{
    let old = eval::tag_at(u, i);
    if eval::join(t, tag, old) != old {
        return Err(Stop::AssignTag);
    }
    let g = eval::join(t, tag, u32::from(v.tag));
    put_place(u, i, v.value, g);
    Ok(())
}

// x is the index.
fn store_at(t: &Tables, u: &mut [u64; 2112], tag: u32, x: Place, v: Place) -> Result<(), Stop>
    requires { CellGiven t.now u.old tag x v }
    ensures { StoredAt t.now u.old tag x v result u.new }
{
    if u32::from(t.cells) <= x.value {
        return Err(Stop::Index);
    }
    let n = usize::from(t.vars) + (x.value as usize);
    let b = eval::join(t, tag, u32::from(x.tag));
    let old = eval::tag_at(u, n);
    if eval::join(t, b, old) != old {
        return Err(Stop::StoreTag);
    }
    let g = eval::join(t, b, u32::from(v.tag));
    put_place(u, n, v.value, g);
    Ok(())
}

// Expression i is the index and e the value. Gives the end that forbids the store, if one does.
pub fn store(t: &Tables, u: &mut [u64; 2112], tag: u32, i: usize, e: usize) -> Result<(), Stop>
    requires { StoreGiven t.now u.old tag i e }
    ensures { Stored t.now u.old tag i e result u.new }
{
    let x = eval::value(t, u, i)?;
    let v = eval::value(t, u, e)?;
    store_at(t, u, tag, x, v)
}

pub fn may_emit(t: &Tables, tag: u32, port: usize, v: Place) -> bool
    requires { (tag < 16) × (v.tag < 16) × (join_in t.now tag v.tag < 16) × (port < 16) × (clearance_in t.now port < 16) }
    ensures { result ≡ may_emit t.now tag port v }
{
    let clearance = u32::from(t.clearances[port]);
    let b = eval::join(t, tag, u32::from(v.tag));
    eval::join(t, b, clearance) == clearance
}
