// Labels that are not trusted: where the label of a spot leads, and the chain back to the start.
ghost use Rattle.std.specs.Prelude.{◌≡◌, ◌+◌, ◌*◌, ◌≤◌, length};
ghost use Rattle.words.specs.Pieces.{write};
ghost use Rattle.request.specs.Request.{asked, reach};
ghost use Rattle.request.specs.Shape as shape;
ghost use Rattle.request.specs.Accepted.{Regular, Small, Fits};
ghost use Rattle.rounds.specs.Label.{filled};
ghost use Rattle.rounds.specs.Rounds.{label_in};
ghost use Rattle.route.specs.Chain.{chain};
ghost use Rattle.route.specs.Links.{link_of, trail_of};
ghost use Rattle.route.specs.Answer.{arcs_of};

use crate::holds::piece;
use request::{Refusal, Request};
use rounds::Step;
use words::word;

// A request with its arcs, label words that are not trusted, and the number of cells of a node.
#[derive(Clone, Copy)]
pub struct Store<'a> {
    pub request: Request,
    pub arcs: &'a [u32],
    pub labels: &'a [u32],
    pub cells: u32,
    pub ghost regular: { Regular (asked request arcs.now) },
    pub ghost small: { Small (asked request arcs.now) },
    pub ghost fits: { Fits (asked request arcs.now) },
    pub ghost cells_is: { cells ≡ shape.cells (asked request arcs.now) },
}

// Where a label stands: its layer, its node and its cell.
#[derive(Clone, Copy)]
pub struct Spot {
    pub layer: u32,
    pub node: u32,
    pub cell: u32,
}

// Where a label that holds leads: nowhere, since it is the start; to the same cell of the layer before; by an arc from a
// spot there.
#[derive(Clone, Copy)]
pub(crate) enum Link {
    Ends,
    Kept(Spot),
    Came(u32, Spot),
}

impl<'a> Store<'a> {
    // Which of all labels a spot's is.
    fn number(&self, spot: Spot) -> usize
        requires { spot.layer ≤ self.now.request.hops }
        ensures value { result ≡ (spot.layer * self.now.request.nodes + spot.node) * self.now.cells + spot.cell }
        ensures small { result ≤ 9007199254740992 }
    {
        let node = spot.layer as usize * self.request.nodes as usize + spot.node as usize;
        node * self.cells as usize + spot.cell as usize
    }

    // The words of the label of a spot, as many of them as there are.
    pub fn label(&self, spot: Spot) -> &'a [u32]
        requires { spot.layer ≤ self.now.request.hops }
        ensures { result.now ≡ label_in (asked self.now.request self.now.arcs.now) self.now.labels.now spot.layer spot.node spot.cell }
    {
        let width = self.request.criteria as usize + 2;
        piece(self.labels, self.number(spot), width)
    }

    // Whether the label of a spot is filled.
    pub fn is_filled(&self, spot: Spot) -> bool
        requires { spot.layer ≤ self.now.request.hops }
        ensures { result ≡ filled (asked self.now.request self.now.arcs.now) (label_in (asked self.now.request self.now.arcs.now) self.now.labels.now spot.layer spot.node spot.cell) }
    {
        // By its step word alone: a listing asks this of every cell of the last layer, and most are empty.
        let d = self.request.criteria as usize;
        let step = word(self.labels, self.number(spot) * (d + 2) + d);
        Step::from(step).is_filled()
    }

    // Where the label of a spot leads, or the layer in which the chain breaks.
    fn leads(&self, spot: Spot) -> Result<Link, Refusal>
        requires { spot.layer ≤ self.now.request.hops }
        ensures { result ≡ link_of (asked self.now.request self.now.arcs.now) self.now.labels.now spot.layer spot.node spot.cell }
    {
        let d = self.request.criteria as usize;
        let l = self.label(spot);
        // The layer before. Layer 0 has none, and there the tests of a kept label and of an arc label fail.
        let layer = spot.layer.saturating_sub(1);
        let same = Spot { layer, ..spot };
        match self.step(l) {
            Step::Start if self.start_holds(l, spot) => Ok(Link::Ends),
            Step::Kept if self.kept_holds(l, spot, self.label(same)) => Ok(Link::Kept(same)),
            Step::Came(arc) => {
                let node = word(piece(self.arcs, arc as usize, d + 2), 0);
                let cell = word(l, d + 1);
                let from = Spot { layer, node, cell };
                if self.arc_holds(l, spot, arc, self.label(from)) {
                    Ok(Link::Came(arc, from))
                } else {
                    Err(Refusal::Chain(spot.layer))
                }
            }
            _ => Err(Refusal::Chain(spot.layer)),
        }
    }

    // Follows the chain of a spot's label back to the start and writes its arcs in travel order, or writes nothing where it
    // breaks: how many arcs there are.
    pub fn follow(&self, spot: Spot, route: &mut [u32]) -> Result<u32, Refusal>
        requires layer { spot.layer ≤ self.now.request.hops }
        requires room { reach (asked self.now.request self.now.arcs.now) ≤ length route.old }
        ensures value { result ≡ trail_of (chain (asked self.now.request self.now.arcs.now) self.now.labels.now spot.layer spot.node spot.cell) }
        ensures route_after { route.new ≡ write route.old 0 (arcs_of (chain (asked self.now.request self.now.arcs.now) self.now.labels.now spot.layer spot.node spot.cell)) }
    {
        match self.leads(spot)? {
            Link::Ends => Ok(0),
            Link::Kept(before) => self.follow(before, route),
            Link::Came(arc, before) => {
                let count = self.follow(before, route)?;
                route[count as usize] = arc;
                Ok(count + 1)
            }
        }
    }
}
