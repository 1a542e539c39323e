//! A text that grows up to the limit.

ghost use Rattle.std.specs.Prelude.{◌≡◌, ◌<◌, ◌≤◌, ◌+◌, ◌++◌, [], OnOk, IsErrOf, length};
ghost use Rattle.std.specs.Fmt.{decimal};
ghost use Rattle.logic_meaning.specs.Text.{name_at};

use crate::error::PrintError;
use formula_tree::Names;
use itoa::Buffer;
use logic_meaning::{TEXT_LIMIT, VarId};
use std::alloc::Global;
use std::marker::Model;

/// The bytes of a text so far, never more than the limit.
#[derive(Drop)]
pub struct Output {
    bytes: Vec<u8>,
}

impl Model for Output {
    ghost use Rattle.std.specs.Prelude.{List, ℕ, ◌≤◌, length};
    ghost use Rattle.logic_meaning.specs.Writing.{text_limit};

    ghost Value = { List ℕ };

    ghost view = { λ o. o.bytes.items };

    ghost invariant = { λ o. length o.bytes.items ≤ text_limit };
}

impl Output {
    ghost use Rattle.logic_meaning.specs.Writing.{text_limit};

    /// Nothing so far.
    pub fn new(alloc: Global) -> Output
        ensures { result ≡ [] }
    {
        Output {
            bytes: Vec::new(alloc),
        }
    }

    /// Adds the bytes. `Text` comes exactly where the text would pass the limit.
    pub fn put(&mut self, bytes: &[u8]) -> Result<(), PrintError>
        ensures wrote { OnOk result (self.new ≡ self.old ++ bytes.now) }
        ensures long { IsErrOf result PrintError.Text → text_limit < length self.old + length bytes.now }
        ensures few { length self.new ≤ text_limit }
    {
        if TEXT_LIMIT - self.bytes.len() < bytes.len() {
            return Err(PrintError::Text);
        }
        self.bytes
            .extend_from_slice(bytes)
            .map_err(|_| PrintError::Memory)?;
        Ok(())
    }

    /// Adds the digits of the number.
    pub fn put_number(&mut self, number: u128) -> Result<(), PrintError>
        ensures wrote { OnOk result (self.new ≡ self.old ++ decimal number) }
        ensures long { IsErrOf result PrintError.Text → text_limit < length self.old + length (decimal number) }
        ensures few { length self.new ≤ text_limit }
    {
        self.put(Buffer::new().format(number).as_bytes())
    }

    /// Adds the name with this number.
    pub fn put_name(&mut self, names: &Names, x: VarId) -> Result<(), PrintError>
        requires { x.number < length names.now }
        ensures wrote { OnOk result (self.new ≡ self.old ++ name_at names.now x.number) }
        ensures long { IsErrOf result PrintError.Text → text_limit < length self.old + length (name_at names.now x.number) }
        ensures few { length self.new ≤ text_limit }
    {
        match names.text(x) {
            Some(name) => self.put(name),
            None => unreachable!(),
        }
    }

    /// The bytes of the text.
    pub fn into_bytes(self) -> Vec<u8>
        ensures bytes { result.items ≡ self }
        ensures short { length self ≤ text_limit }
    {
        let Output { bytes } = self;
        bytes
    }
}
