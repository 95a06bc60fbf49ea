// Document 01's "Labels and rounds" as definitions, with their laws: specs/ states them, proofs/ proves them. And what a label's step word says, as
// code. The rounds themselves are run in the crate `table`.
#![tactic(auto)]

ghost use Rattle.std.specs.Prelude.{◌≡◌, ◌<◌, ◌^◌, ltb};
ghost use Rattle.rounds.specs.Step.{step_of, word_of};

// What a label is, by its step word: empty, the start, kept from the layer before, or come by an arc.
#[derive(Clone, Copy)]
pub enum Step {
    Empty,
    Start,
    Kept,
    Came(u32),
}

impl From<u32> for Step {
    ghost from_gives = { λ word step. step ≡ step_of word };

    #[tactic(auto, unfolding(crate::specs::Step::step_of))]
    fn from(word: u32) -> Self {
        match word {
            0 => Step::Empty,
            1 => Step::Start,
            2 => Step::Kept,
            _ => Step::Came(word - 3),
        }
    }
}

impl Step {
    // Whether it is not an empty label's.
    pub fn is_filled(self) -> bool
        ensures { result ≡ ltb 0 (word_of self) }
    {
        !matches!(self, Step::Empty)
    }

    // The word that says it.
    pub fn word(self) -> u32
        requires { word_of self < 2 ^ 32 }
        ensures { result ≡ word_of self }
    {
        match self {
            Step::Empty => 0,
            Step::Start => 1,
            Step::Kept => 2,
            Step::Came(arc) => arc + 3,
        }
    }
}
