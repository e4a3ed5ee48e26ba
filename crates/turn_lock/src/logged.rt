//! What a lock has to know of the state that it holds.
ghost use Rattle.std.specs.Prelude.{◌≡◌, ℕ, List, length};

/// What contracts see of a state: a history, whose entries each name a number, and a part that stays as it is.
pub trait Logged {
    type Mark;

    type Fixed;

    ghost history: { Self → List Self.Mark };

    ghost names: { Self.Mark → ℕ };

    ghost fixed: { Self → Self.Fixed };

    /// The length of the history, which is therefore shorter than 2^64.
    fn placed(&self) -> u64
        ensures { result ≡ length (history self.now) };
}
