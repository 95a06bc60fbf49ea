// The label table: layer 0, the rounds, and the build that checks a request and draws its table up in the lent buffers.
#![tactic(auto)]

ghost use Rattle.std.specs.Prelude.{◌≡◌, [], ◌∷◌, ◌+◌, ◌-◌, ◌*◌, ◌≤◌, ◌<◌, length};
ghost use Rattle.words.specs.Loops.{up_to};
ghost use Rattle.words.specs.Pieces.{write};
ghost use Rattle.request.specs.Request.{asked, arc_count};
ghost use Rattle.request.specs.Accepted.{Accepted};
ghost use Rattle.request.specs.Answer.{shape_of};
ghost use Rattle.rounds.specs.Rounds.{start_layer, keep_all, arc_step, round, round_tries, table, tries};
ghost use Rattle.tries.specs.Tries.{asked_by};
ghost use Rattle.table.specs.Build.{layer_in, Layered, Notes, Laddered, ladder_words, built_of, ladders_after, labels_after};

use keeping::{Note, UNNOTED, keep_layer};
use request::{Refusal, Request, Shape, check, fill_ladders};
use rounds::Step;
use tries::Frame;
use words::clear;

// Where a node's block begins in a layer.
fn block_at(s: &Frame, v: usize) -> usize
    requires { v ≤ 64 }
    ensures { result ≡ v * s.now.span }
{
    v * s.span
}

// Layer 0, at the front of the labels: all empty but for a start in cell 0 of the source.
fn start_layer(s: &Frame, labels: &mut [u32])
    requires { s.now.request.nodes * s.now.span ≤ length labels.old }
    ensures { labels.new ≡ write labels.old 0 (start_layer (asked_by s.now)) }
{
    let end = s.request.nodes as usize * s.span;
    clear(&mut labels[..end]);
    let source = s.request.source as usize * s.span;
    labels[source + s.d] = Step::Start.word();
}

// All arcs, in table order, from the layer at `prev` into the layer at `base`, which holds what was kept of it: how many tries.
// A try is counted for every filled label of an arc's tail; only the range that was noted for the tail is looked at.
fn try_arcs(s: &Frame, labels: &mut [u32], notes: &[Note], prev: usize, base: usize) -> u64
    requires layered { Layered (asked_by s.now) labels.old prev base }
    requires kept { layer_in (asked_by s.now) labels.old base ≡ keep_all (asked_by s.now) (layer_in (asked_by s.now) labels.old prev) }
    requires noted { Notes (asked_by s.now) (layer_in (asked_by s.now) labels.old prev) notes.now }
    ensures labels_after { labels.new ≡ write labels.old base (up_to (arc_step (asked_by s.now) (layer_in (asked_by s.now) labels.old prev)) (layer_in (asked_by s.now) labels.old base) (arc_count (asked_by s.now))) }
    ensures value { result ≡ round_tries (asked_by s.now) (layer_in (asked_by s.now) labels.old prev) }
{
    let mut tries = 0;
    for (a, arc) in s.arcs.chunks_exact(s.w).enumerate() {
        let tail = arc[0] as usize;
        let head = arc[1] as usize;
        let note = notes[tail];
        tries += note.filled;
        let from = prev + block_at(s, tail);
        let to = base + block_at(s, head);
        s.try_arc(labels, from, to, a, note.low, note.high);
    }
    tries
}

// One round: the layer at `base` becomes the round of the layer at `prev`.
fn run_round(s: &Frame, labels: &mut [u32], prev: usize, base: usize) -> u64
    requires layered { Layered (asked_by s.now) labels.old prev base }
    ensures labels_after { labels.new ≡ write labels.old base (round (asked_by s.now) (layer_in (asked_by s.now) labels.old prev)) }
    ensures value { result ≡ round_tries (asked_by s.now) (layer_in (asked_by s.now) labels.old prev) }
{
    let mut notes = [UNNOTED; 64];
    let n = s.request.nodes as usize;
    keep_layer(labels, &mut notes, n, s.cells, s.d, prev, base);
    try_arcs(s, labels, &notes, prev, base)
}

// All rounds, from a layer 0 that stands at the front of the labels: how many tries.
fn run_rounds(s: &Frame, labels: &mut [u32]) -> u64
    requires room { length (table (asked_by s.now)) ≤ length labels.old }
    requires started { layer_in (asked_by s.now) labels.old 0 ≡ start_layer (asked_by s.now) }
    ensures labels_after { labels.new ≡ write labels.old 0 (table (asked_by s.now)) }
    ensures value { result ≡ tries (asked_by s.now) s.now.request.hops }
{
    let layer = s.request.nodes as usize * s.span;
    let mut base = 0;
    let mut tries = 0;
    for i in 0..s.request.hops {
        let next = base + layer;
        tries += run_round(s, labels, base, next);
        base = next;
    }
    tries
}

// Layer 0 and all rounds, at the front of the labels: how many tries.
fn draw_up(s: &Frame, labels: &mut [u32]) -> u64
    requires { length (table (asked_by s.now)) ≤ length labels.old }
    ensures labels_after { labels.new ≡ write labels.old 0 (table (asked_by s.now)) }
    ensures value { result ≡ tries (asked_by s.now) s.now.request.hops }
{
    start_layer(s, labels);
    run_rounds(s, labels)
}

// The frame of an accepted request with its shape, whose ladders stand at the front of a buffer.
fn make_frame<'a>(request: Request, arcs: &'a [u32], ladders: &'a [u32], shape: Shape) -> Frame<'a>
    requires accepted { Accepted (asked request arcs.now) }
    requires shape_is { shape ≡ shape_of (asked request arcs.now) }
    requires laddered { Laddered (asked request arcs.now) ladders.now }
    ensures given { (result.request ≡ request) × (result.arcs.now ≡ arcs.now) × (result.ladders.now ≡ ladders.now) }
    ensures sizes { (result.d ≡ request.criteria) × (result.w ≡ request.criteria + 2) × (result.cells ≡ shape.cells) × (result.span ≡ shape.cells * (request.criteria + 2)) }
    ensures counts { result.counts ≡ shape.b1 ∷ shape.b2 ∷ [] }
{
    let d = request.criteria as usize;
    let w = d + 2;
    let cells = shape.cells as usize;
    Frame {
        request,
        arcs,
        ladders,
        d,
        w,
        cells,
        span: cells * w,
        counts: [shape.b1 as usize, shape.b2 as usize],
    }
}

// How many words the ladders of d criteria take.
fn ladder_words(shape: Shape, d: u32) -> usize
    requires { (2 ≤ d) × (d ≤ 3) }
    ensures { result ≡ ladder_words shape.b1 shape.b2 (d - 1) }
{
    let first = shape.b1 as usize + 1;
    if d == 2 {
        return first;
    }
    first + (shape.b2 as usize + 1)
}

// The build of an accepted request: the two buffers are weighed, and then everything is written.
fn build_shaped(
    request: Request,
    arcs: &[u32],
    ladders: &mut [u32],
    labels: &mut [u32],
    shape: Shape,
) -> Result<u64, Refusal>
    requires { (Accepted (asked request arcs.now)) × (shape ≡ shape_of (asked request arcs.now)) }
    ensures value { result ≡ built_of (asked request arcs.now) (length ladders.old) (length labels.old) }
    ensures ladders_after { ladders.new ≡ ladders_after (asked request arcs.now) ladders.old (length labels.old) }
    ensures labels_after { labels.new ≡ labels_after (asked request arcs.now) (length ladders.old) labels.old }
{
    let d = request.criteria;
    if ladders.len() < ladder_words(shape, d) {
        return Err(Refusal::Room(1));
    }
    let words = (shape.labels as usize) * (d as usize + 2);
    if labels.len() < words {
        return Err(Refusal::Room(2));
    }
    let counts = [shape.b1, shape.b2];
    fill_ladders(ladders, request.ratios, counts, d as usize - 1);
    let s = make_frame(request, arcs, ladders, shape);
    Ok(draw_up(&s, labels))
}

// Draws up the table of a request: its ladders one after another at the front of the one lent buffer, its layers 0 to K
// at the front of the other. A refusal leaves both as they came.
pub fn build(
    request: Request,
    arcs: &[u32],
    ladders: &mut [u32],
    labels: &mut [u32],
) -> Result<u64, Refusal>
    ensures value { result ≡ built_of (asked request arcs.now) (length ladders.old) (length labels.old) }
    ensures ladders_after { ladders.new ≡ ladders_after (asked request arcs.now) ladders.old (length labels.old) }
    ensures labels_after { labels.new ≡ labels_after (asked request arcs.now) (length ladders.old) labels.old }
{
    let shape = check(request, arcs)?;
    build_shaped(request, arcs, ladders, labels, shape)
}
