// edge_collapse.rs: the two collapse tests, by walks along rings. A neighbour of the vertex at corner d stands at the corner before d, which
// is the opposite that the walk has just crossed to. Up to 16 neighbours are kept at hand, so that each ring is walked once; for more the
// rings are walked anew for each neighbour, with no memory, at the product of the two.
#![tactic(auto)]

mod near;

ghost use Rattle.std.specs.Prelude.{◌≡◌, false, ℕ, Bool, ◌||◌, IfSome};
ghost use Rattle.corner.specs.Corner.{next, previous};
ghost use Rattle.table.specs.Parts.{seen};
ghost use Rattle.table.specs.Table.{vertex, corner};
ghost use Rattle.edge_collapse.specs.EdgeCollapse.{how_many, times_in, common_in};
ghost use Rattle.edge_collapse.specs.EdgeCollapse.{crowded, affects_boundary, unsafe};
ghost use Rattle.edge_collapse.specs.Judged.{border_from, ring_from, IsGathered, judged, judgement};

use corner::Corner;
use near::Near;
use table::Seen;

// ---- along one ring

// What a walk found: how many neighbours passed a test, and whether a border was met.
#[derive(Clone, Copy)]
struct Walked {
    passing: usize,
    border: bool,
}

// The walk to the left from c0, with a test of each neighbour.
fn walk<F: Fn(u32) -> bool>(t: &Seen, c0: Corner, passes: F) -> Walked
    requires { F.IsAlwaysCallable passes }
    ensures border { result.border ≡ border_from (seen t.now) c0.0 }
    ensures passing { (p : ℕ → Bool) → ((x : ℕ) (r : Bool) → F.post passes x r → r ≡ p x)
        → result.passing ≡ how_many p (ring_from (seen t.now) c0.0) }
{
    let first = c0.previous_index();
    let mut via = c0.next_index();
    let mut passing = usize::from(passes(table::at(t.cv, first, 0)));
    for _step in 0..t.corners {
        let Some(o) = Corner(table::at(t.co, via, u32::MAX)).present() else {
            return Walked {
                passing,
                border: true,
            };
        };
        if o.0 as usize == first {
            break;
        }
        passing += usize::from(passes(table::at(t.cv, o.0 as usize, 0)));
        via = o.previous_index();
    }
    Walked {
        passing,
        border: false,
    }
}

fn meets_border(t: &Seen, c: Corner) -> bool
    ensures { result ≡ border_from (seen t.now) c.0 }
{
    walk(t, c, |_| false).border
}

// How often x occurs in the ring of neighbours from c.
#[tactic(auto, unfolding(crate::specs::EdgeCollapse::times_in))]
fn times(t: &Seen, c: Corner, x: u32) -> usize
    ensures { result ≡ times_in (ring_from (seen t.now) c.0) x }
{
    walk(t, c, |y| y == x).passing
}

// How many neighbours in the ring from `lost` occur in the ring from `kept`.
#[tactic(auto, unfolding(crate::specs::EdgeCollapse::common_in))]
fn common(t: &Seen, kept: Corner, lost: Corner) -> usize
    ensures { result ≡ common_in (ring_from (seen t.now) kept.0) (ring_from (seen t.now) lost.0) }
{
    walk(t, lost, |x| 0 < times(t, kept, x)).passing
}

// ---- the two tests of the edge of c

// Where the rings of an edge's ends begin, that of the kept vertex and that of the lost one; and the lost vertex.
#[derive(Clone, Copy)]
struct Ends {
    kept: Corner,
    lost: Corner,
    vertex: u32,
}

impl Ends {
    fn of(t: &Seen, c: Corner) -> Ends
        ensures kept { result.kept.0 ≡ corner (seen t.now) (vertex (seen t.now) (next c.0)) }
        ensures lost { result.lost.0 ≡ corner (seen t.now) (vertex (seen t.now) (previous c.0)) }
        ensures vertex { result.vertex ≡ vertex (seen t.now) (previous c.0) }
    {
        let kept = table::at(t.cv, c.next_index(), 0);
        let lost = table::at(t.cv, c.previous_index(), 0);
        Ends {
            kept: Corner(table::at(t.vc, kept as usize, u32::MAX)),
            lost: Corner(table::at(t.vc, lost as usize, u32::MAX)),
            vertex: lost,
        }
    }
}

// "any edge at either end vertex lacks an opposite"
#[tactic(auto, unfolding(crate::specs::EdgeCollapse::affects_boundary))]
pub fn will_collapse_affect_boundary(t: &Seen, c: Corner) -> bool
    ensures { result ≡ affects_boundary (seen t.now) c.0 }
{
    let e = Ends::of(t, c);
    meets_border(t, e.kept) || meets_border(t, e.lost)
}

// "a third live face holds both end vertices, or if the number of entries in the deleted vertex's neighbour ring that occur in the kept vertex's
// ring isn't exactly two"
pub fn is_topologically_unsafe(t: &Seen, c: Corner) -> bool
    ensures { result ≡ unsafe (seen t.now) c.0 }
{
    let e = Ends::of(t, c);
    1 < times(t, e.kept, e.vertex) || common(t, e.kept, e.lost) != 2
}

// ---- both tests at once

// A ring of neighbours: one with a border is open; one with more than 16 is not kept.
#[derive(Drop)]
enum Gathered {
    Border,
    TooMany,
    All(Near),
}

// The ring from c0, in a loop of its own: of a closure that puts what it is handed into a list, no caller of `walk` learns what it has put.
fn gather(t: &Seen, c0: Corner) -> Gathered
    ensures { IsGathered (seen t.now) c0.0 result }
{
    let first = c0.previous_index();
    let mut via = c0.next_index();
    let mut near = Near::of(table::at(t.cv, first, 0));
    for _step in 0..t.corners {
        let Some(o) = Corner(table::at(t.co, via, u32::MAX)).present() else {
            return Gathered::Border;
        };
        if o.0 as usize == first {
            break;
        }
        if near.is_full() {
            return Gathered::TooMany;
        }
        near.push(table::at(t.cv, o.0 as usize, 0));
        via = o.previous_index();
    }
    Gathered::All(near)
}

// How often x occurs.
#[tactic(auto, using(crate::proofs::Counts::times_counted))]
fn count(near: &[u32], x: u32) -> usize
    ensures { result ≡ times_in near.now x }
{
    near.iter().filter(|&&y| y == x).count()
}

// How many of `far` occur in `near`.
#[tactic(auto, using(crate::proofs::Counts::common_counted))]
fn shared(near: &[u32], far: &[u32]) -> usize
    ensures { result ≡ common_in near.now far.now }
{
    far.iter().filter(|x| near.contains(x)).count()
}

#[derive(Clone, Copy, PartialEq, Eq)]
pub enum Judgement {
    Safe,
    Unsafe,
    Boundary,
}

// What the rings say, where they could be kept at hand.
fn judge_near(t: &Seen, e: Ends) -> Option<Judgement>
    ensures { IfSome result (λ j. j ≡ judged
        (border_from (seen t.now) e.kept.0 || border_from (seen t.now) e.lost.0)
        (crowded (ring_from (seen t.now) e.kept.0) (ring_from (seen t.now) e.lost.0) e.vertex)) }
{
    match (gather(t, e.kept), gather(t, e.lost)) {
        (Gathered::Border, _) | (_, Gathered::Border) => Some(Judgement::Boundary),
        (Gathered::All(near), Gathered::All(far)) => Some(compare(
            near.list(),
            far.list(),
            e.vertex,
        )),
        _ => None,
    }
}

fn compare(near: &[u32], far: &[u32], lost: u32) -> Judgement
    ensures { result ≡ judged false (crowded near.now far.now lost) }
{
    if 1 < count(near, lost) || shared(near, far) != 2 {
        Judgement::Unsafe
    } else {
        Judgement::Safe
    }
}

// Both tests. Where a border is met, the second is not told.
pub fn judge(t: &Seen, c: Corner) -> Judgement
    ensures { result ≡ judgement (seen t.now) c.0 }
{
    if let Some(j) = judge_near(t, Ends::of(t, c)) {
        return j;
    }
    if will_collapse_affect_boundary(t, c) {
        return Judgement::Boundary;
    }
    if is_topologically_unsafe(t, c) {
        Judgement::Unsafe
    } else {
        Judgement::Safe
    }
}
