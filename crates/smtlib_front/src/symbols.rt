// The text of a symbol.
ghost use Rattle.std.specs.Prelude.{◌≡◌, ◌<◌, ◌+◌, ◌++◌, ◌==◌, codes, OnOk, IsErrOf, length};
ghost use Rattle.std.specs.List.{list_all, list_any};
ghost use Rattle.logic_meaning.specs.Writing.{text_limit};
ghost use Rattle.smt_language.specs.Lexing.{is_symbol_part, begins_with_digit};
ghost use Rattle.program_meaning.specs.Texts.{is_simple, symbol_text};

use logic_meaning::Name;
use redlog_printer::{Output, PrintError};
use redlog_tokens::{is_digit, is_letter};

// The symbol, in bars only where it has to be.
pub(crate) fn put_symbol(out: &mut Output, symbol: &Name) -> Result<(), PrintError>
    ensures wrote { OnOk result (out.new ≡ out.old ++ symbol_text symbol.now) }
    ensures long { IsErrOf result PrintError.Text → text_limit < length out.old + length (symbol_text symbol.now) }
{
    let text = symbol.bytes();
    if is_simple(text) {
        return out.put(text);
    }
    out.put(b"|")?;
    out.put(text)?;
    out.put(b"|")
}

// Whether the symbol needs no bars.
fn is_simple(text: &[u8]) -> bool
    ensures { result ≡ is_simple text.now }
{
    !begins_with_digit(text) && has_symbol_parts(text)
}

// Whether the symbol consists of what a simple one does.
fn has_symbol_parts(text: &[u8]) -> bool
    ensures { result ≡ list_all is_symbol_part text.now }
{
    text.iter().all(|b| is_symbol_part(*b))
}

fn begins_with_digit(text: &[u8]) -> bool
    ensures { result ≡ begins_with_digit text.now }
{
    match text.first() {
        Some(first) => is_digit(*first),
        None => false,
    }
}

// What a simple symbol consists of.
fn is_symbol_part(b: u8) -> bool
    ensures { result ≡ is_symbol_part b }
{
    is_letter(b) || is_digit(b) || is_symbol_sign(b)
}

fn is_symbol_sign(b: u8) -> bool
    ensures { result ≡ list_any (λ c. b == c) (codes "~!@$%^&*_-+=<>.?/") }
{
    b"~!@$%^&*_-+=<>.?/".contains(&b)
}
