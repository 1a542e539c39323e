ghost use Rattle.std.specs.Prelude.{◌≡◌, ◌++◌, IfOk, OnOk};
ghost use Rattle.smt_language.specs.Commands.{AreCommands};
ghost use Rattle.smt_tokens.specs.Begun.{listed};

use crate::lexer::next_lexeme;
use crate::step::Begun;
use smt_language::SmtCut;
use std::alloc::{AllocError, Global};

/// The commands of a script, in order. What a parenthesis outside all others opens is one up to what closes it, or up to the end of
/// the bytes where nothing does; tokens before the next such parenthesis, or the end, are one too. A bad token counts as one.
pub fn smt_cuts(alloc: Global, bytes: &[u8]) -> Result<Vec<SmtCut>, AllocError>
    ensures { IfOk result (λ cuts. AreCommands bytes.now cuts.items) }
{
    let mut cuts = Vec::new(alloc);
    let mut begun = Begun::Nothing;
    let mut from = 0;
    'tokens: while let Some(lexeme) = next_lexeme(bytes, from) {
        let step = begun.take(&lexeme);
        put(&mut cuts, step.ended)?;
        begun = step.begun;
        from = lexeme.end;
    }
    put(&mut cuts, begun.end(bytes.len()))?;
    Ok(cuts)
}

/// Puts a command behind the others, if there is one.
fn put(cuts: &mut Vec<SmtCut>, ended: Option<SmtCut>) -> Result<(), AllocError>
    ensures { OnOk result (cuts.new.items ≡ cuts.old.items ++ listed ended) }
{
    if let Some(cut) = ended {
        cuts.push(cut)?;
    }
    Ok(())
}
