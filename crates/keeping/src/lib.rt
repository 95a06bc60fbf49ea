// What a round keeps of the layer before: a label, a node's block, a layer; and what it notes of each node on the way.
#![tactic(auto)]

ghost use Rattle.std.specs.Prelude.{◌≡◌, ◌+◌, ◌*◌, ◌≤◌, ◌<◌, cond, length, get_or, replicate, ltb, eqb};
ghost use Rattle.words.specs.Pieces.{part, at, write, join};
ghost use Rattle.rounds.specs.Label.{label};
ghost use Rattle.rounds.specs.Rounds.{bit};
ghost use Rattle.rounds.specs.Passing.{quiet};
ghost use Rattle.rounds.specs.Step.{word_of};
ghost use Rattle.keeping.specs.Kept.{keep_words, kept_block, Noted, KeptIn, LayersIn, NotedAll};

use rounds::Step;
use words::clear;

// What is noted of a block: how many of its labels are filled, and a range of cells outside which all are empty or kept. The range is empty,
// 0 to 0, until the first cell that is neither.
#[derive(Clone, Copy)]
pub struct Note {
    pub filled: u64,
    pub low: usize,
    pub high: usize,
}

// What is noted before the first cell.
pub const UNNOTED: Note = Note {
    filled: 0,
    low: 0,
    high: 0,
};

impl Note {
    // This, and the step of cell c.
    fn with(self, step: Step, c: usize) -> Note
        requires { (self.filled ≤ c) × (c < 1048576) }
        ensures { (result.filled ≡ self.filled + bit (ltb 0 (word_of step))) × (result.low ≡ cond (quiet (word_of step)) self.low (cond (eqb self.high 0) c self.low)) × (result.high ≡ cond (quiet (word_of step)) self.high (c + 1)) }
    {
        // One kind at a time: one match on all of them becomes a jump table, gone through for each filled label.
        if !step.is_filled() {
            return self;
        }
        let filled = self.filled + 1;
        if matches!(step, Step::Kept) {
            return Note { filled, ..self };
        }
        Note {
            filled,
            low: if self.high == 0 { c } else { self.low },
            high: c + 1,
        }
    }
}

// The costs of the label at `at`, kept at `to`, word by word.
fn keep_costs(labels: &mut [u32], at: usize, to: usize, d: usize)
    requires { (at + d + 2 ≤ to) × (to + d + 2 ≤ length labels.old) }
    ensures { labels.new ≡ write labels.old to (label (part labels.old at d) 2 0) }
{
    for k in 0..d {
        labels[to + k] = labels[at + k];
    }
    labels[to + d] = Step::Kept.word();
    labels[to + d + 1] = 0;
}

// The label at `at` is kept at `to`, where an empty one stands: its step. An empty label leaves the empty one there.
fn keep(labels: &mut [u32], at: usize, to: usize, d: usize) -> Step
    requires { (at + d + 2 ≤ to) × (to + d + 2 ≤ length labels.old) × (part labels.old to (d + 2) ≡ replicate (d + 2) 0) }
    ensures labels_after { labels.new ≡ write labels.old to (keep_words d (part labels.old at (d + 2))) }
    ensures value { word_of result ≡ get_or (part labels.old at (d + 2)) d 0 }
{
    let step = Step::from(labels[at + d]);
    if step.is_filled() {
        keep_costs(labels, at, to, d);
    }
    step
}

// The block of n labels at `prev` is kept at `base`: what is noted of it.
fn keep_block(labels: &mut [u32], n: usize, d: usize, prev: usize, base: usize) -> Note
    requires { KeptIn labels.old n d prev base }
    ensures labels_after { labels.new ≡ write labels.old base (kept_block d n (part labels.old prev (n * (d + 2)))) }
    ensures noted { Noted d (part labels.old prev (n * (d + 2))) n result }
{
    let w = d + 2;
    let end = base + n * w;
    clear(&mut labels[base..end]);
    let mut noted = UNNOTED;
    let mut at = prev;
    let mut to = base;
    for c in 0..n {
        let step = keep(labels, at, to, d);
        noted = noted.with(step, c);
        at += w;
        to += w;
    }
    noted
}

// The layer of m blocks of n labels at `prev` is kept at `base`, and what is noted of each block put in its place.
pub fn keep_layer(
    labels: &mut [u32],
    notes: &mut [Note],
    m: usize,
    n: usize,
    d: usize,
    prev: usize,
    base: usize,
)
    requires { LayersIn labels.old notes.old m n d prev base }
    ensures labels_after { labels.new ≡ write labels.old base (join (λ v. kept_block d n (at (n * (d + 2)) (part labels.old prev (m * (n * (d + 2)))) v)) m) }
    ensures noted_all { NotedAll d n (part labels.old prev (m * (n * (d + 2)))) m notes.new }
{
    let span = n * (d + 2);
    let mut at = prev;
    let mut to = base;
    for v in 0..m {
        notes[v] = keep_block(labels, n, d, at, to);
        at += span;
        to += span;
    }
}
