// traversal.rs: the corners, vertices, faces, edges and bounding edges around a vertex, written to a lent list. This is the call: what it
// refuses before a walk, and where that begins.
#![tactic(auto)]

ghost use Rattle.std.specs.Prelude.{◌≡◌};
ghost use Rattle.table.specs.Parts.{seen};
ghost use Rattle.traversal_lists.specs.Outcome.{outcome};
ghost use Rattle.traversal.specs.Ring.{ring_of};

use refusal::Refusal;
use table::{Seen, at, corner_of};
use traversal_lists::{Kind, Ring};
use traversal_short::ring_from;
use traversal_visits::{Corners, used_slots};
use vertex::Vertex;

// The list of that kind around a vertex. A refused call writes nothing.
#[tactic(auto, unfolding(crate::specs::Ring::ring_of))]
pub fn ring(kind: Kind, t: &Seen, vertex: Vertex, list: &mut [u32]) -> Result<Ring, Refusal>
    ensures { outcome result list.new ≡ ring_of kind vertex.0 (seen t.now) list.old }
{
    if !t.is_shaped() {
        return Err(Refusal::Parts);
    }
    if used_slots(t.vertices, t.vm.len()) <= vertex.0 {
        return Err(Refusal::NoTarget);
    }
    if at(t.vm, vertex.index(), 1) != 0 {
        return Err(Refusal::Deleted);
    }
    ring_from(kind, &Corners::of(t), corner_of(t.vc, vertex), list)
}
