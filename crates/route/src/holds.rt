// What a label is that holds: the tests of the three kinds, on words that may end too soon.
ghost use Rattle.std.specs.Prelude.{◌≡◌, ◌+◌, ◌*◌, ◌≤◌, length, take, drop};
ghost use Rattle.words.specs.Pieces.{at};
ghost use Rattle.request.specs.Request.{asked};
ghost use Rattle.rounds.specs.Label.{step, sum};
ghost use Rattle.rounds.specs.Step.{step_of};
ghost use Rattle.route.specs.Chain.{same, start_holds, kept_holds, arc_holds};

use crate::store::{Spot, Store};
use rounds::Step;
use words::word;

// Piece k of w words, as much of it as there is.
pub(crate) fn piece(s: &[u32], k: usize, w: usize) -> &[u32]
    requires { (k ≤ 9007199254740992) × (w ≤ 5) }
    ensures { result.now ≡ at w s.now k }
{
    let n = s.len();
    &s[n.min(k * w)..n.min(k * w + w)]
}

// Whether a label's d costs are those of the label reached and the arc's, summed in 64 bits so that nothing wraps.
fn costs_add_up(l: &[u32], reached: &[u32], arc: &[u32], d: usize) -> bool
    requires { (d ≤ length l.now) × (d ≤ length reached.now) × (length arc.now ≡ d + 2) }
    ensures { result ≡ same (take d l.now) (sum (take d reached.now) (drop 2 arc.now)) }
{
    // A chain is no plainer: `l[..d].iter().zip(&reached[..d]).zip(&arc[2..]).all(|((cost, before), more)| ..)`.
    for j in 0..d {
        let sum = reached[j] as u64 + arc[j + 2] as u64;
        if l[j] as u64 != sum {
            return false;
        }
    }
    true
}

impl Store<'_> {
    // What a label is, by its step word.
    pub(crate) fn step(&self, l: &[u32]) -> Step
        ensures { result ≡ step_of (step (asked self.now.request self.now.arcs.now) l.now) }
    {
        Step::from(word(l, self.request.criteria as usize))
    }

    // Whether the label of a spot, a start, holds.
    pub(crate) fn start_holds(&self, l: &[u32], spot: Spot) -> bool
        requires { step (asked self.now.request self.now.arcs.now) l.now ≡ 1 }
        ensures { result ≡ start_holds (asked self.now.request self.now.arcs.now) spot.layer l.now spot.node spot.cell }
    {
        let d = self.request.criteria as usize;
        let from = word(l, d + 1);
        spot.layer == 0
            && spot.node == self.request.source
            && spot.cell == 0
            && from == 0
            && l[..d].iter().all(|cost| *cost == 0)
    }

    // Whether the label of a spot, a kept one, holds, where `reached` is the label of its cell in the layer before.
    pub(crate) fn kept_holds(&self, l: &[u32], spot: Spot, reached: &[u32]) -> bool
        requires { step (asked self.now.request self.now.arcs.now) l.now ≡ 2 }
        ensures { result ≡ kept_holds (asked self.now.request self.now.arcs.now) spot.layer l.now reached.now }
    {
        let d = self.request.criteria as usize;
        let from = word(l, d + 1);
        0 < spot.layer && from == 0 && (!self.step(reached).is_filled() || l[..d] == reached[..d])
    }

    // Whether the label of a spot, which came by an arc, holds, where `reached` is the label of the spot that it came from.
    pub(crate) fn arc_holds(&self, l: &[u32], spot: Spot, arc: u32, reached: &[u32]) -> bool
        requires { 3 ≤ step (asked self.now.request self.now.arcs.now) l.now }
        ensures { result ≡ arc_holds (asked self.now.request self.now.arcs.now) spot.layer l.now spot.node arc reached.now }
    {
        let d = self.request.criteria as usize;
        let words = piece(self.arcs, arc as usize, d + 2);
        let head = word(words, 1);
        let from = word(l, d + 1);
        0 < spot.layer
            && (arc as usize) < self.arcs.len() / (d + 2)
            && head == spot.node
            && from < self.cells
            && (!self.step(reached).is_filled() || costs_add_up(l, reached, words, d))
    }
}
