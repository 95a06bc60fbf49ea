// What the planner is asked, and the first refusal of rows 2 to 10 with 17, or the shape of the table that it will draw up.
#![tactic(auto)]

mod weigh;

ghost use Rattle.std.specs.Prelude.{◌≡◌, [], ◌∷◌, ◌+◌, ◌-◌, ◌*◌, ◌/◌, ◌≤◌, ◌<◌, IfOk, length, get_or};
ghost use Rattle.words.specs.Pieces.{join, write};
ghost use Rattle.words.specs.Rows.{weigh, each};
ghost use Rattle.fences.specs.Fence.{fences};
ghost use Rattle.fences.specs.Answer.{buckets_of};
ghost use Rattle.request.specs.Request.{asked, ratio_p, ratio_q};
ghost use Rattle.request.specs.Refusal.{number_of, place_of, said};
ghost use Rattle.request.specs.Shape.{largest_of, top, count};
ghost use Rattle.request.specs.Rows.{bucket_row};
ghost use Rattle.request.specs.Answer.{shaped_of, checked_of, Ladders};
ghost use Rattle.request.specs.Accepted.{Regular, Small};

use fences::Ratio;
use weigh::weigh_asked;
pub use weigh::{weigh_arc_words, weigh_criteria};

// A request has at most so many arcs.
pub const MOST_ARCS: u32 = 512;

// A refusal: a row of document 01's table, with its place where the row names one.
#[derive(Clone, Copy)]
pub enum Refusal {
    // The sheet's form: the first bad line, from 1.
    Form(u32),
    Nodes,
    Criteria,
    Source,
    Hops,
    // The ratio of a criterion, from 1.
    Ratio(u32),
    ArcWords,
    // An arc's node or cost, by the arc from 0.
    Arc(u32),
    // A track from a camp to itself, by the arc from 0.
    Loop(u32),
    // The bucket count of a criterion, from 1.
    Buckets(u32),
    Labels,
    // A number to be written has more than eight digits.
    Digits,
    // The sheet has too many bytes.
    Bytes,
    // The first lent buffer that is too short, from 1.
    Room(u32),
    // There is no such layer, node or cell.
    Place,
    // The layer in which a chain breaks.
    Chain(u32),
}

impl Refusal {
    // Document 01's number for it.
    pub fn number(self) -> u32
        ensures { result ≡ number_of self }
    {
        match self {
            Refusal::Form(_) => 1,
            Refusal::Nodes => 2,
            Refusal::Criteria => 3,
            Refusal::Source => 4,
            Refusal::Hops => 5,
            Refusal::Ratio(_) => 6,
            Refusal::ArcWords => 7,
            Refusal::Arc(_) => 8,
            Refusal::Buckets(_) => 9,
            Refusal::Labels => 10,
            Refusal::Digits => 11,
            Refusal::Bytes => 12,
            Refusal::Room(_) => 13,
            Refusal::Place => 14,
            Refusal::Chain(_) => 16,
            Refusal::Loop(_) => 17,
        }
    }

    // Its place, 0 where none is named.
    pub fn place(self) -> u32
        ensures { result ≡ place_of self }
    {
        match self {
            Refusal::Form(place)
            | Refusal::Ratio(place)
            | Refusal::Arc(place)
            | Refusal::Loop(place)
            | Refusal::Buckets(place)
            | Refusal::Room(place)
            | Refusal::Chain(place) => place,
            _ => 0,
        }
    }
}

// A request: nodes N, criteria d, the source, hops K, and p and q for each criterion but the last, one pair after another.
// A pair that is not in use is 0 over 1 when it is read, and is never looked at.
#[derive(Clone, Copy)]
pub struct Request {
    pub nodes: u32,
    pub criteria: u32,
    pub source: u32,
    pub hops: u32,
    pub ratios: [u32; 4],
}

// The shape of a table: the bucket counts of the first two criteria, 1 where one has no ratio; C; the number of labels.
#[derive(Clone, Copy)]
pub struct Shape {
    pub b1: u32,
    pub b2: u32,
    pub cells: u32,
    pub labels: u32,
}

// The largest cost of criterion j among arcs of w words.
fn largest(arcs: &[u32], w: usize, j: usize) -> u32
    requires { (j + 2 < w) × (length arcs.now ≤ 2560) }
    ensures { result ≡ largest_of w arcs.now (length arcs.now / w) j }
{
    let mut most = 0;
    for arc in arcs.chunks_exact(w) {
        most = most.max(arc[j + 2]);
    }
    most
}

// The ratio of criterion j.
fn ratio(ratios: [u32; 4], j: usize) -> Ratio
    requires in_use { j < 2 }
    requires q_positive { 0 < get_or ratios (j * 2 + 1) 0 }
    requires p_within { get_or ratios (j * 2) 0 ≤ get_or ratios (j * 2 + 1) 0 }
    ensures { (result.p ≡ get_or ratios (j * 2) 0) × (result.q ≡ get_or ratios (j * 2 + 1) 0) }
{
    Ratio {
        p: ratios[j * 2],
        q: ratios[j * 2 + 1],
    }
}

// The bucket count of criterion j, none where it is over 4,096.
fn count_buckets(q: Request, arcs: &[u32], j: usize) -> Option<u32>
    requires j_bound { j < q.criteria - 1 }
    requires regular { Regular (asked q arcs.now) }
    requires small { Small (asked q arcs.now) }
    ensures { result ≡ buckets_of (ratio_p (asked q arcs.now) j) (ratio_q (asked q arcs.now) j) (top (asked q arcs.now) j) }
{
    let most = largest(arcs, q.criteria as usize + 2, j);
    let top = q.hops * most;
    ratio(q.ratios, j).count(top)
}

// Row 9, or the bucket counts, 1 where a criterion has no ratio.
fn count_all(q: Request, arcs: &[u32]) -> Result<[u32; 2], Refusal>
    requires regular { Regular (asked q arcs.now) }
    requires small { Small (asked q arcs.now) }
    ensures outcome { said result ≡ weigh (each (bucket_row (asked q arcs.now)) (q.criteria - 1)) }
    ensures counts { IfOk result (λ counts. counts ≡ count (asked q arcs.now) 0 ∷ count (asked q arcs.now) 1 ∷ []) }
{
    let graded = q.criteria as usize - 1;
    let mut counts = [1u32; 2];
    for j in 0..graded {
        counts[j] = count_buckets(q, arcs, j).ok_or(Refusal::Buckets(j as u32 + 1))?;
    }
    Ok(counts)
}

// Row 10, or the shape, from the bucket counts.
fn judge_labels(q: Request, b1: u32, b2: u32) -> Result<Shape, Refusal>
    requires { (q.nodes ≤ 64) × (q.hops ≤ 63) × (b1 ≤ 4096) × (b2 ≤ 4096) }
    ensures { result ≡ shaped_of q.nodes q.hops b1 b2 }
{
    let cells = (b1 as u64) * (b2 as u64);
    let layer = (q.nodes as u64) * cells;
    let labels = ((q.hops as u64) + 1) * layer;
    if 1048576 < labels {
        return Err(Refusal::Labels);
    }
    Ok(Shape {
        b1,
        b2,
        cells: cells as u32,
        labels: labels as u32,
    })
}

// The first refusal of rows 2 to 10 with 17, or the shape of the table. Request and arcs are two parameters, here and wherever a caller gives them:
// C hands them over apart, and the theorems on the promises name them so.
pub fn check(q: Request, arcs: &[u32]) -> Result<Shape, Refusal>
    ensures { result ≡ checked_of (asked q arcs.now) }
{
    weigh_asked(q, arcs)?;
    let counts = count_all(q, arcs)?;
    judge_labels(q, counts[0], counts[1])
}

// The ladders of the given ratios and bucket counts, one after another, at the front of the lent buffer. Ratios and counts are words side by side, in
// fixed memory for two criteria at most, as the request and the shape have them.
pub fn fill_ladders(ladders: &mut [u32], ratios: [u32; 4], counts: [u32; 2], graded: usize)
    requires { Ladders ratios counts graded (length ladders.old) }
    ensures { ladders.new ≡ write ladders.old 0 (join (λ j. fences (get_or ratios (j * 2) 0) (get_or ratios (j * 2 + 1) 0) (get_or counts j 0 + 1)) graded) }
{
    let mut at = 0;
    for j in 0..graded {
        let end = at + counts[j] as usize + 1;
        ratio(ratios, j).fill(&mut ladders[at..end]);
        at = end;
    }
}
