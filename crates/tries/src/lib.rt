// The tries of one arc: each filled label of the tail's block, extended and offered to the head's block.
#![tactic(auto)]

ghost use Rattle.std.specs.Prelude.{◌≡◌, ℕ, ◌+◌, ◌-◌, ◌*◌, ◌≤◌, ◌<◌, length, get_or};
ghost use Rattle.words.specs.Pieces.{part, write};
ghost use Rattle.words.specs.Radix.{volume};
ghost use Rattle.request.specs.Request.{asked, arc_count};
ghost use Rattle.rounds.specs.Rounds.{span, try_arc};
ghost use Rattle.rounds.specs.Passing.{quiet};
ghost use Rattle.labels.specs.Words.{Seeks, FoundAt};
ghost use Rattle.tries.specs.Frame.{Framed};

use labels::{add_costs, find_cell, place};
use request::Request;
use rounds::Step;

// An accepted request with its arcs, the ladders that stand at the front of a buffer, and the sizes that the loops go by,
// worked out once: the criteria, the words of a label, the cells of a node, the words of a node's block, the bucket counts.
#[derive(Clone, Copy)]
pub struct Frame<'a> {
    pub request: Request,
    pub arcs: &'a [u32],
    pub ladders: &'a [u32],
    pub d: usize,
    pub w: usize,
    pub cells: usize,
    pub span: usize,
    pub counts: [usize; 2],
    pub ghost framed: { Framed (asked request arcs.now) ladders.now d w cells span counts },
}

// Whether a step word says empty or kept.
fn is_quiet(step: u32) -> bool
    ensures { result ≡ quiet step }
{
    // By words: a match on the Step that the word says takes four instructions more for each cell that the scan passes.
    step == Step::Empty.word() || step == Step::Kept.word()
}

impl<'a> Frame<'a> {
    ghost use Rattle.tries.specs.Tries.{asked_by, made, offered, Extends, Apart, Ranged, Hinted, Fresh};

    // Where a cell's words begin in a block.
    fn label_at(&self, c: usize) -> usize
        requires { c < self.now.cells }
        ensures { (result ≡ c * self.now.w) × (result + self.now.w ≤ self.now.span) }
    {
        c * self.w
    }

    // A candidate is offered to a cell of the block at `to`.
    fn offer(&self, labels: &mut [u32], cand: &[u32], to: usize, cell: usize)
        requires { (cell < self.now.cells) × (length cand.now ≡ self.now.w) × (to + self.now.span ≤ length labels.old) }
        ensures { labels.new ≡ write labels.old to (offered self.now.d (part labels.old to self.now.span) cell cand.now) }
    {
        let at = to + self.label_at(cell);
        let end = at + self.w;
        place(&mut labels[at..end], cand, self.d);
    }

    // A candidate is offered to its own cell of the block at `to`, looked for from the places found last: the cell.
    fn offer_found(
        &self,
        labels: &mut [u32],
        cand: &[u32],
        places: &mut [usize],
        to: usize,
    ) -> usize
        requires seeks { Seeks self.now.counts (self.now.d - 1) self.now.ladders.now cand.now places.old }
        requires room { (length cand.now ≡ self.now.w) × (to + self.now.span ≤ length labels.old) }
        ensures { (labels.new ≡ write labels.old to (offered self.now.d (part labels.old to self.now.span) result cand.now)) × FoundAt self.now.counts (self.now.d - 1) self.now.ladders.now cand.now result places.new }
    {
        let cell = find_cell(cand, self.ladders, places, self.counts, self.d - 1);
        self.offer(labels, cand, to, cell);
        cell
    }

    // The label at `at`, in cell c of its block, is extended by arc a, and the candidate offered to the block at `to`: its cell.
    fn extend(
        &self,
        labels: &mut [u32],
        places: &mut [usize],
        at: usize,
        to: usize,
        a: usize,
        c: usize,
    ) -> usize
        requires { Extends self.now labels.old at to a c places.old }
        ensures { (labels.new ≡ write labels.old to (offered self.now.d (part labels.old to self.now.span) result (made self.now labels.old at a c))) × FoundAt self.now.counts (self.now.d - 1) self.now.ladders.now (made self.now labels.old at a c) result places.new }
    {
        let w = self.w;
        let end = at + w;
        let arc_at = a * w;
        let arc_end = arc_at + w;
        let mut cand = [0u32; 5];
        add_costs(
            &mut cand[..w],
            &labels[at..end],
            &self.arcs[arc_at..arc_end],
            self.d,
            Step::Came(a as u32).word(),
            c as u32,
        );
        self.offer_found(labels, &cand[..w], places, to)
    }

    // The places whose number a cell is, found by division: where to look first for what its label makes.
    fn places_of(&self, cell: usize) -> [usize; 2]
        ensures { Hinted (asked_by self.now) result }
    {
        let mut places = [0; 2];
        let mut rest = cell;
        for j in (0..self.d - 1).rev() {
            places[j] = rest % self.counts[j];
            rest /= self.counts[j];
        }
        places
    }

    // The first cell from c on, below `high`, of a block that is neither empty nor kept.
    fn next_fresh(&self, block: &[u32], c: usize, high: usize) -> Option<usize>
        requires { (c ≤ high) × (high ≤ self.now.cells) × (high * self.now.w ≤ length block.now) }
        ensures { Fresh self.now.d block.now c high result }
    {
        for i in c..high {
            if !is_quiet(block[i * self.w + self.d]) {
                return Some(i);
            }
        }
        None
    }

    // Every filled cell of the tail's block, at `from`, tried by arc a into the head's block, at `to`. Only the cells from
    // `low` up to `high` that are neither empty nor kept are extended: there is nothing new in the others.
    pub fn try_arc(
        &self,
        labels: &mut [u32],
        from: usize,
        to: usize,
        a: usize,
        low: usize,
        high: usize,
    )
        requires apart { Apart (asked_by self.now) labels.old from to a }
        requires a_bound { a < arc_count (asked_by self.now) }
        requires ranged { Ranged (asked_by self.now) (part labels.old from (span (asked_by self.now))) low high }
        ensures { labels.new ≡ write labels.old to (try_arc (asked_by self.now) (part labels.old from (span (asked_by self.now))) a (part labels.old to (span (asked_by self.now)))) }
    {
        let end = from + self.span;
        let Some(first) = self.next_fresh(&labels[from..end], low, high) else {
            return;
        };
        // A copy, which no write to the labels can change, made where there is work: with `self` alone the sizes are loaded again for each cell, a tenth
        // slower. No loop over a range: each next cell is looked for in what the tries before have left.
        let s = *self;
        let mut places = s.places_of(first);
        let mut next = Some(first);
        while let Some(c) = next {
            let at = from + s.label_at(c);
            s.extend(labels, &mut places, at, to, a, c);
            next = s.next_fresh(&labels[from..end], c + 1, high);
        }
    }
}
