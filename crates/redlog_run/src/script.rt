ghost use Rattle.std.specs.Prelude.{◌≡◌, ◌++◌, IfOk, OnOk};
ghost use Rattle.program_meaning.specs.Generated.{generated, statements, statement, statement_with};

use crate::number::add_number;
use std::alloc::{AllocError, Global};

/// The generated script, with this number of statements in each theory.
pub fn generated(alloc: Global, count: u32) -> Result<Vec<u8>, AllocError>
    ensures { IfOk result (λ script. script.items ≡ generated count) }
{
    let mut script = Vec::new(alloc);
    script.extend_from_slice(b"rlset ofsf$\n")?;
    add_statements(alloc, count, &mut script)?;
    script.extend_from_slice(b"rlset pasf$\n")?;
    add_statements(alloc, count, &mut script)?;
    script.extend_from_slice(b"end;\n")?;
    Ok(script)
}

/// Adds the statements from the first to this one.
fn add_statements(alloc: Global, count: u32, script: &mut Vec<u8>) -> Result<(), AllocError>
    ensures { OnOk result (script.new.items ≡ script.old.items ++ statements count) }
{
    'statements: for before in 0..count {
        add_statement(alloc, before + 1, script)?;
    }
    Ok(())
}

/// Adds one statement.
fn add_statement(alloc: Global, number: u32, script: &mut Vec<u8>) -> Result<(), AllocError>
    ensures { OnOk result (script.new.items ≡ script.old.items ++ statement number) }
{
    let text = statement_with(alloc, 1 + number % 5, number % 7)?;
    script.extend_from_slice(&text)?;
    Ok(())
}

/// The statement of p and q.
fn statement_with(alloc: Global, p: u32, q: u32) -> Result<Vec<u8>, AllocError>
    ensures { IfOk result (λ text. text.items ≡ statement_with p q) }
{
    let mut text = Vec::new(alloc);
    text.extend_from_slice(b"rlqe all(a,ex(x,a<")?;
    add_number(alloc, p as usize, &mut text)?;
    text.extend_from_slice(b"*x and ")?;
    add_number(alloc, p as usize, &mut text)?;
    text.extend_from_slice(b"*x<=a+")?;
    add_number(alloc, q as usize, &mut text)?;
    text.extend_from_slice(b"));\n")?;
    Ok(text)
}
