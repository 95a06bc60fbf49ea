// The fences of a ratio p over q: the next fence, a ladder top's bucket count, a ladder's words, a cost's position.
#![tactic(auto)]

ghost use Rattle.std.specs.Prelude.{◌≡◌, ◌+◌, ◌≤◌, ◌<◌, length};
ghost use Rattle.fences.specs.Fence.{next, fences, buckets};
ghost use Rattle.fences.specs.Answer.{buckets_of, Bracket, Slot};

// A ratio p over q, at most 1.
#[derive(Clone, Copy)]
pub struct Ratio {
    pub p: u32,
    pub q: u32,
    ghost q_positive: { 0 < q },
    ghost p_within: { p ≤ q },
}

impl Ratio {
    // The fence after b.
    fn next_fence(self, b: u32) -> u32
        requires { b ≤ 134217728 }
        ensures { result ≡ next self.p self.q b }
    {
        let wide = (b as u64) * ((self.p as u64) + (self.q as u64)) / (self.q as u64) + 1;
        wide as u32
    }

    // The bucket count of a ladder top, which is at most 63 hops of 1,000,000; none where it is over 4,096.
    pub fn count(self, top: u32) -> Option<u32>
        requires { top ≤ 63000000 }
        ensures { result ≡ buckets_of self.p self.q top }
    {
        let mut b = 0;
        for j in 0..4096 {
            b = self.next_fence(b);
            if top < b {
                return Some(j + 1);
            }
        }
        None
    }

    // The lent part becomes fences 0, 1, .. of the ratio; it is no longer than the ladder of the largest top.
    pub fn fill(self, ladder: &mut [u32])
        requires { length ladder.old ≤ buckets self.p self.q 63000000 + 1 }
        ensures { ladder.new ≡ fences self.p self.q (length ladder.old) }
    {
        let mut b = 0;
        for fence in ladder.iter_mut() {
            *fence = b;
            b = self.next_fence(b);
        }
    }
}

// The place of a cost among a ladder's words, looked for upwards from a place that is not above it.
fn climb(ladder: &[u32], c: u32, from: usize) -> usize
    requires { Bracket ladder.now c from }
    ensures { Slot ladder.now c result }
{
    let mut j = from;
    // Tried: `from + ladder[from + 1..].iter().take_while(|fence| **fence <= c).count()` proves; its test for the end adds 2 ns to a call's 3 to 8.
    while ladder[j + 1] <= c {
        j += 1;
    }
    j
}

// The place of a cost among a ladder's words, looked for from a hint: any hint is right, and the search takes as many
// steps as the place is away from it.
pub fn seek(ladder: &[u32], c: u32, hint: usize) -> usize
    requires bracket { Bracket ladder.now c 0 }
    requires hint_in_bounds { hint + 1 < length ladder.now }
    ensures { Slot ladder.now c result }
{
    let mut j = hint;
    // Tried: `hint - ladder[..=hint].iter().rev().take_while(|fence| c < **fence).count()` proves; it adds 1 to 2 ns more.
    while c < ladder[j] {
        j -= 1;
    }
    climb(ladder, c, j)
}
