//! The tokens of a statement with the bytes that they stand in.

use language_meaning::{ReadError, Terminal};
use redlog_tokens::{Token, Tokens, terminals, tokens};
use std::alloc::{AllocError, Global};

/// At most so many bytes of a token are told.
const MOST_TOLD: usize = 40;

/// The tokens of a text: where each stands, and what it is to the grammar.
#[derive(Drop)]
pub struct Spelled<'a> {
    pub text: &'a [u8],
    tokens: Tokens,
    pub terminals: Vec<Terminal>,
}

impl<'a> Spelled<'a> {
    /// The tokens of a text without a bad one.
    pub fn of(alloc: Global, text: &'a [u8]) -> Result<Spelled<'a>, ReadError> {
        Ok(Spelled {
            text,
            tokens: tokens(alloc, text)?,
            terminals: terminals(alloc, text)?,
        })
    }

    /// The token of this number.
    fn token(&self, number: usize) -> Option<&Token> {
        self.tokens.items().get(number)
    }

    /// What the token of this number is to the grammar.
    pub fn terminal(&self, number: usize) -> Option<&Terminal> {
        self.terminals.get(number)
    }

    /// The offset of the token of this number, or that of the end of the last one where there are fewer.
    pub fn offset(&self, number: usize) -> usize {
        match (self.token(number), self.tokens.items().last()) {
            (Some(token), _) => token.start,
            (None, Some(last)) => last.end,
            (None, None) => 0,
        }
    }

    /// The bytes of the token of this number.
    pub fn bytes(&self, number: usize) -> &'a [u8] {
        match self.token(number) {
            Some(token) => self.text.get(token.start..token.end).unwrap_or(&[]),
            None => &[],
        }
    }

    /// The bytes from the token of this number on.
    pub fn rest(&self, number: usize) -> &'a [u8] {
        self.text.get(self.offset(number)..).unwrap_or(&[])
    }

    /// The bytes between this token and the one before.
    pub fn before(&self, number: usize) -> &'a [u8] {
        match (number.checked_sub(1), self.token(number)) {
            (Some(last), Some(token)) => match self.token(last) {
                Some(last) => self.text.get(last.end..token.start).unwrap_or(&[]),
                None => &[],
            },
            _ => &[],
        }
    }

    /// Adds the token of this number in quotation marks.
    pub fn quote(&self, alloc: Global, number: usize, into: &mut String) -> Result<(), AllocError> {
        let bytes = self.bytes(number);
        into.push('"')?;
        match bytes.get(..MOST_TOLD) {
            Some(front) => {
                into.push_str(String::from_utf8_lossy(alloc, front)?.as_str())?;
                into.push_str("..")?;
            }
            None => into.push_str(String::from_utf8_lossy(alloc, bytes)?.as_str())?,
        }
        into.push('"')
    }
}
