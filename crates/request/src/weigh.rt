// Rows 2 to 8 of a request, with 17: its sizes, its ratios, how many words its arcs have, and each arc.
ghost use Rattle.std.specs.Prelude.{◌≡◌, [], ◌∷◌, ◌++◌, ◌+◌, ◌/◌, ◌≤◌, ◌<◌, length};
ghost use Rattle.words.specs.Rows.{weigh, each};
ghost use Rattle.request.specs.Request.{asked};
ghost use Rattle.request.specs.Rows.{outside, criteria_row, size_rows, ratio_row, arc_words_row, arc_fault, fault_row, arc_row, ask_rows, arc_rows};
ghost use Rattle.request.specs.Refusal.{said};

use crate::{MOST_ARCS, Refusal, Request};

// Whether n is outside lo to hi.
fn outside(lo: u32, hi: u32, n: u32) -> bool
    ensures { result ≡ outside lo hi n }
{
    n < lo || hi < n
}

// Row 3.
pub fn weigh_criteria(d: u32) -> Result<(), Refusal>
    ensures { said result ≡ weigh (criteria_row d ∷ []) }
{
    if outside(2, 3, d) {
        return Err(Refusal::Criteria);
    }
    Ok(())
}

// Rows 2 to 5.
fn weigh_sizes(q: Request) -> Result<(), Refusal>
    ensures { said result ≡ weigh (size_rows q.nodes q.criteria q.source q.hops) }
{
    if outside(1, 64, q.nodes) {
        return Err(Refusal::Nodes);
    }
    weigh_criteria(q.criteria)?;
    if q.nodes <= q.source {
        return Err(Refusal::Source);
    }
    if outside(0, 63, q.hops) {
        return Err(Refusal::Hops);
    }
    Ok(())
}

// Row 6, of the first `graded` criteria.
fn weigh_ratios(ratios: [u32; 4], graded: usize) -> Result<(), Refusal>
    requires { graded ≤ 2 }
    ensures { said result ≡ weigh (each (ratio_row ratios) graded) }
{
    for j in 0..graded {
        let p = ratios[j * 2];
        let q = ratios[j * 2 + 1];
        if outside(1, 1000, q) || outside(0, q, p) {
            return Err(Refusal::Ratio(j as u32 + 1));
        }
    }
    Ok(())
}

// Row 7, of so many arc words of width d + 2.
pub fn weigh_arc_words(words: usize, width: usize) -> Result<(), Refusal>
    requires { 0 < width }
    ensures { said result ≡ weigh (arc_words_row words width ∷ []) }
{
    if 0 < words % width || (MOST_ARCS as usize) < words / width {
        return Err(Refusal::ArcWords);
    }
    Ok(())
}

// Row 8 with 17 of arc a: its nodes, then whether it leads from a camp to itself, then its costs.
fn weigh_arc(arc: &[u32], a: u32, n: u32, d: usize) -> Result<(), Refusal>
    requires { length arc.now ≡ d + 2 }
    ensures { said result ≡ weigh (fault_row (arc_fault n d arc.now) a ∷ []) }
{
    if n <= arc[0] || n <= arc[1] {
        return Err(Refusal::Arc(a));
    }
    if arc[0] == arc[1] {
        return Err(Refusal::Loop(a));
    }
    if arc[2..].iter().any(|cost| 1_000_000 < *cost) {
        return Err(Refusal::Arc(a));
    }
    Ok(())
}

// Row 8 with 17: the first arc that has a fault.
fn weigh_arcs(arcs: &[u32], n: u32, d: usize) -> Result<(), Refusal>
    requires { (d ≤ 3) × (length arcs.now / (d + 2) ≤ 512) }
    ensures { said result ≡ weigh (each (arc_row n d arcs.now) (length arcs.now / (d + 2))) }
{
    for (a, arc) in arcs.chunks_exact(d + 2).enumerate() {
        weigh_arc(arc, a as u32, n, d)?;
    }
    Ok(())
}

// Rows 2 to 8, with 17.
pub(crate) fn weigh_asked(q: Request, arcs: &[u32]) -> Result<(), Refusal>
    ensures { said result ≡ weigh (ask_rows (asked q arcs.now) ++ arc_rows (asked q arcs.now)) }
{
    weigh_sizes(q)?;
    let d = q.criteria as usize;
    weigh_ratios(q.ratios, d - 1)?;
    weigh_arc_words(arcs.len(), d + 2)?;
    weigh_arcs(arcs, q.nodes, d)
}
