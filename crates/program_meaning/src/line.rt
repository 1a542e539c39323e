ghost use Rattle.std.specs.Prelude.{◌≡◌};
ghost use Rattle.program_meaning.specs.Words.{word_of};

use thiserror::Error;

/// What a statement is answered with.
#[derive(Drop)]
pub enum Line {
    /// No line is printed.
    Nothing,
    /// This line is printed, without its newline.
    Printed(Vec<u8>),
    /// No line is printed, and the script ends here.
    Finished,
}

/// Why a statement is refused, or that memory ran out.
#[derive(Clone, Copy, Debug, PartialEq, Eq, Error)]
pub enum StatementError {
    #[error("long")]
    Long,
    #[error("lexical")]
    Lexical,
    #[error("nesting")]
    Nesting,
    #[error("syntax")]
    Syntax,
    #[error("unbound")]
    Unbound,
    #[error("formula-as-term")]
    FormulaAsTerm,
    #[error("nonlinear")]
    Nonlinear,
    #[error("division")]
    Division,
    #[error("congruence-context")]
    CongruenceContext,
    #[error("context")]
    Context,
    #[error("modulus")]
    Modulus,
    #[error("depth")]
    Depth,
    #[error("point")]
    Point,
    #[error("unvalued")]
    Unvalued,
    #[error("quantified")]
    Quantified,
    #[error("overflow")]
    Overflow,
    #[error("nodes")]
    Nodes,
    #[error("bindings")]
    Bindings,
    #[error("text")]
    Text,
    #[error("out of memory")]
    Memory,
}

impl StatementError {
    /// The word of the refusal, as its line has it. It takes no memory.
    pub fn word(self) -> &'static str
        ensures { result.now ≡ word_of self }
    {
        match self {
            StatementError::Long => "long",
            StatementError::Lexical => "lexical",
            StatementError::Nesting => "nesting",
            StatementError::Syntax => "syntax",
            StatementError::Unbound => "unbound",
            StatementError::FormulaAsTerm => "formula-as-term",
            StatementError::Nonlinear => "nonlinear",
            StatementError::Division => "division",
            StatementError::CongruenceContext => "congruence-context",
            StatementError::Context => "context",
            StatementError::Modulus => "modulus",
            StatementError::Depth => "depth",
            StatementError::Point => "point",
            StatementError::Unvalued => "unvalued",
            StatementError::Quantified => "quantified",
            StatementError::Overflow => "overflow",
            StatementError::Nodes => "nodes",
            StatementError::Bindings => "bindings",
            StatementError::Text => "text",
            StatementError::Memory => "memory",
        }
    }
}
