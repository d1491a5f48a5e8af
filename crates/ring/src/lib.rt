// The ring of a corner, walked by opposites alone, with a value stored at each corner of it.
#![tactic(auto)]

ghost use Rattle.std.specs.Prelude.{◌≡◌};
ghost use Rattle.table.specs.Slots.{relabel};
ghost use Rattle.ring.specs.Ring.{sweep, ring as ring_of, Labelled};

use corner::Corner;

// v at the corners of one side of the walk from c0, after c0. Tells whether the side ended at a border. The walk stands on the corner
// that it crosses from, as the Rust's does: a step is one opposite and its two turns.
fn label_side(left: bool, co: &[u32], c0: Corner, room: u32, l: &mut [u32], v: u32) -> bool
    ensures { Labelled (sweep left co.now c0.0 room c0.0) v l.old l.new result }
{
    let mut via = c0.turn_index(left);
    for _step in 0..room {
        let Some(o) = Corner(table::at(co, via, u32::MAX)).present() else {
            return true;
        };
        let d = o.turn_index(left);
        if d == c0.index() {
            return false;
        }
        table::put(l, d, v);
        via = o.turn_index(!left);
    }
    false
}

// v at every corner of the ring of c, on a table with n corners used.
pub fn label(co: &[u32], n: u32, c: Corner, l: &mut [u32], v: u32)
    ensures { l.new ≡ relabel (ring_of co.now n c.0) v l.old }
{
    table::put(l, c.index(), v);
    if label_side(true, co, c, n, l, v) {
        label_side(false, co, c, n, l, v);
    }
}
