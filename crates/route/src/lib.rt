// Reading a route back from a label buffer that is not trusted.
#![tactic(auto)]

mod holds;
mod store;

ghost use Rattle.std.specs.Prelude.{◌≡◌, [], ◌∷◌, length};
ghost use Rattle.request.specs.Request.{asked};
ghost use Rattle.route.specs.Answer.{ending_of, costs_after, route_after};
ghost use Rattle.route.specs.Found.{found_ending, found_costs};

use request::{Refusal, Request, check};
pub use store::{Spot, Store};
use words::word;

// How a read-back ends: a route with its arc count, an empty cell, a refusal. The survey's paper names this form, an enum of the three with the costs
// beside it, so it is no Result; `find` answers one.
#[derive(Clone, Copy)]
pub enum Ending {
    Route(u32),
    Empty,
    Refused(Refusal),
}

// A read-back: how it ends, and beside it the route's costs, 0 where there is none.
#[derive(Clone, Copy)]
pub struct Back {
    pub ending: Ending,
    pub costs: [u32; 3],
}

// A route that was found: how many arcs it has, and its costs, 0 past the last criterion.
#[derive(Clone, Copy)]
struct Found {
    count: u32,
    costs: [u32; 3],
}

// The route of a spot's label, none where its cell is empty: rows 2 to 10 with 17 and 13 to 16, and then the chain.
fn find(
    request: Request,
    arcs: &[u32],
    labels: &[u32],
    spot: Spot,
    route: &mut [u32],
) -> Result<Option<Found>, Refusal>
    ensures ending_value { found_ending result ≡ ending_of (asked request arcs.now) labels.now (length route.old) spot.layer spot.node spot.cell }
    ensures costs_value { found_costs result ≡ costs_after (asked request arcs.now) labels.now (length route.old) spot.layer spot.node spot.cell }
    ensures route_after { route.new ≡ route_after (asked request arcs.now) labels.now route.old spot.layer spot.node spot.cell }
{
    let shape = check(request, arcs)?;
    let d = request.criteria as usize;
    if labels.len() < shape.labels as usize * (d + 2) {
        return Err(Refusal::Room(1));
    }
    if route.len() < request.hops as usize {
        return Err(Refusal::Room(2));
    }
    let cells = shape.cells;
    if request.hops < spot.layer || request.nodes <= spot.node || cells <= spot.cell {
        return Err(Refusal::Place);
    }
    let store = Store {
        request,
        arcs,
        labels,
        cells,
    };
    if !store.is_filled(spot) {
        return Ok(None);
    }
    let costs = &store.label(spot)[..d];
    let costs = [word(costs, 0), word(costs, 1), word(costs, 2)];
    let count = store.follow(spot, route)?;
    Ok(Some(Found { count, costs }))
}

// A read-back without a route: how it ends, and costs 0.
fn no_route(ending: Ending) -> Back
    ensures { (result.ending ≡ ending) × (result.costs ≡ 0 ∷ 0 ∷ 0 ∷ []) }
{
    Back {
        ending,
        costs: [0; 3],
    }
}

// Reads the label of a layer, node and cell back as a route: its arc count and costs, and its arc numbers in travel order
// at the front of the lent buffer. An empty cell or a refusal leaves the buffer as it came. Layer, node and cell come as three numbers: as C asks them, and
// as the theorems on this promise name them.
pub fn read_back(
    request: Request,
    arcs: &[u32],
    labels: &[u32],
    layer: u32,
    node: u32,
    cell: u32,
    route: &mut [u32],
) -> Back
    ensures ending_value { result.ending ≡ ending_of (asked request arcs.now) labels.now (length route.old) layer node cell }
    ensures costs_value { result.costs ≡ costs_after (asked request arcs.now) labels.now (length route.old) layer node cell }
    ensures route_after { route.new ≡ route_after (asked request arcs.now) labels.now route.old layer node cell }
{
    let spot = Spot { layer, node, cell };
    match find(request, arcs, labels, spot, route) {
        Ok(Some(found)) => {
            let costs = found.costs;
            Back {
                ending: Ending::Route(found.count),
                costs,
            }
        }
        Ok(None) => no_route(Ending::Empty),
        Err(refusal) => no_route(Ending::Refused(refusal)),
    }
}
