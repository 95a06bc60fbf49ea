// What a try does to one label's words: make a candidate, find its cell, place it.
#![tactic(auto)]

ghost use Rattle.std.specs.Prelude.{◌≡◌, cond, ◌+◌, ◌≤◌, length, take, drop};
ghost use Rattle.rounds.specs.Label.{label, sum};
ghost use Rattle.labels.specs.Words.{wins_over, Adds, Seeks, FoundAt, SameFrom};

use fences::seek;
use rounds::Step;
use words::copy;

// The candidate that a label's costs, an arc's costs and two words make.
pub fn add_costs(out: &mut [u32], lab: &[u32], arc: &[u32], d: usize, step: u32, from: u32)
    requires { Adds d out.old lab.now arc.now }
    ensures { out.new ≡ label (sum (take d lab.now) (drop 2 arc.now)) step from }
{
    for k in 0..d {
        out[k] = lab[k] + arc[k + 2];
    }
    out[d] = step;
    out[d + 1] = from;
}

// Whether a candidate takes a cell's place: the cell is empty, or holds a strictly larger last cost.
fn wins(cand: &[u32], cell: &[u32], d: usize) -> bool
    requires { (length cand.now ≡ d + 2) × (length cell.now ≡ d + 2) × (1 ≤ d) }
    ensures { result ≡ wins_over d cand.now cell.now }
{
    !Step::from(cell[d]).is_filled() || cand[d - 1] < cell[d - 1]
}

// A candidate is offered to a cell.
pub fn place(cell: &mut [u32], cand: &[u32], d: usize)
    requires { (length cell.old ≡ d + 2) × (length cand.now ≡ d + 2) × (1 ≤ d) }
    ensures { cell.new ≡ cond (wins_over d cand.now cell.old) cand.now cell.old }
{
    if wins(cand, cell, d) {
        copy(cell, cand);
    }
}

// The cell of a candidate among the ladders, which stand one after another in the caller's buffer, as their counts say. Its places are looked for from those of the last one, which are lent, and take their
// place.
pub fn find_cell(
    cand: &[u32],
    ladders: &[u32],
    places: &mut [usize],
    counts: [usize; 2],
    graded: usize,
) -> usize
    requires { Seeks counts graded ladders.now cand.now places.old }
    ensures found_at { FoundAt counts graded ladders.now cand.now result places.new }
    ensures same_from { SameFrom graded places.new places.old }
{
    let mut cell: usize = 0;
    let mut at: usize = 0;
    for j in 0..graded {
        let size = counts[j];
        let end = at + size + 1;
        let found = seek(&ladders[at..end], cand[j], places[j]);
        places[j] = found;
        cell = cell * size + found;
        at = end;
    }
    cell
}
