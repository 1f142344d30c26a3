ghost use Rattle.std.specs.Prelude.{◌≡◌, ◌≢◌, suc, ◌∷◌, option_map, MatchBool};
ghost use Rattle.task_model.specs.Terms.Text.{Text};
ghost use Rattle.http_heads.specs.Phases.{rest_behind};

/// What the bytes up to a place end in, as far as the end of the block depends on it.
#[derive(Clone, Copy)]
pub(crate) enum Phase {
    /// Blank lines.
    Blank,
    /// Blank lines, and a CR.
    BlankReturn,
    /// A byte of the block that is no LF.
    Line,
    /// An LF of the block.
    LineEnd,
    /// An LF of the block, and a CR.
    LineEndReturn,
    /// The whole block.
    Ended,
}

impl Phase {
    /// The phase with one more byte.
    #[tactic(auto, using(crate::proofs::PhaseLemmas::steps))]
    pub(crate) fn behind(self, byte: u8) -> Phase
        requires { self ≢ Phase.Ended }
        ensures { (t : Text) → rest_behind self (byte ∷ t) ≡ option_map (λ n. suc n) (rest_behind result t) }
    {
        match self {
            Phase::Blank => match byte {
                b'\n' => Phase::Blank,
                b'\r' => Phase::BlankReturn,
                _ => Phase::Line,
            },
            Phase::BlankReturn => match byte {
                b'\n' => Phase::Blank,
                _ => Phase::Line,
            },
            Phase::Line => match byte {
                b'\n' => Phase::LineEnd,
                _ => Phase::Line,
            },
            Phase::LineEnd => match byte {
                b'\n' => Phase::Ended,
                b'\r' => Phase::LineEndReturn,
                _ => Phase::Line,
            },
            Phase::LineEndReturn => match byte {
                b'\n' => Phase::Ended,
                _ => Phase::Line,
            },
            Phase::Ended => unreachable!(),
        }
    }

    /// Whether the block has ended.
    pub(crate) fn has_ended(self) -> bool
        ensures { MatchBool result (self ≡ Phase.Ended) (self ≢ Phase.Ended) }
    {
        match self {
            Phase::Ended => true,
            _ => false,
        }
    }
}
