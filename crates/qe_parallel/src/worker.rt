// What works on numbered pieces.
ghost use Rattle.std.specs.Prelude.{ℕ, ◌<◌, IfOk, IfErr};

/// Works on numbered pieces, each on its own. It has a number of pieces, and says which answers and which stops each may have.
pub trait Worker {
    /// An answer to a piece.
    type Out: Send + Drop;

    /// Why a piece has none.
    type Stop: Send + Drop;

    ghost pieces: { Self → ℕ };

    ghost answers: { Self → ℕ → Self.Out → Type 0 };

    ghost stops: { Self → ℕ → Self.Stop → Type 0 };

    /// The answer to a piece, or why it has none.
    fn answer(&self, piece: usize) -> Result<Self::Out, Self::Stop>
        requires { piece < pieces self.now }
        ensures answer { IfOk result (λ out. answers self.now piece out) }
        ensures stop { IfErr result (λ stop. stops self.now piece stop) };
}
