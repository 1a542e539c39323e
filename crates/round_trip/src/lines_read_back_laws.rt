//! What is proved of lines that are read back. Each function does nothing; its contract is a law.

ghost use Rattle.round_trip.specs.ReadBack.{TextIsAnswered, NamesStayWritable, PrintedIsFormula, EchoIsAnswered};

/// In a state in which nothing is bound, the text of a formula as the session has it, followed by `;`, is answered with the
/// line of the same text, which changes nothing, or memory runs out. The text is at most 4 MiB long and 512 levels deep.
pub fn text_is_answered()
    ensures { TextIsAnswered }
{}

/// Each statement that is answered leaves the names ones that a script can write, each once.
pub fn names_stay_writable()
    ensures { NamesStayWritable }
{}

/// What each formula command prints in a state in which nothing is bound is the text of a formula as the session has it, whose
/// numbers are within the limit. So it is answered with the same line again, where it is no higher than a resolved formula may
/// be, at most 4 MiB long and 512 levels deep. It is low enough where it is printed as it is.
pub fn printed_is_formula()
    ensures { PrintedIsFormula }
{}

/// So a formula that is printed as it is is answered with the same line again, as long as it is at most 4 MiB long and 512 levels deep.
pub fn echo_is_answered()
    ensures { EchoIsAnswered }
{}
