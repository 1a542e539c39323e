//! A row: a script, the words and the ends that it is answered under, and what it is to be answered with.

use crate::ends::{Answer, Ends};
use crate::text::{add_line, add_numbered, add_repeated, told};
use program_meaning::Status;
use std::alloc::{AllocError, Global};
use std::fs::{self, Files};
use std::io;
use std::thread::Threads;

/// The bytes in a read of the tries that are to be answered alike.
const PIECES: [usize; 4] = [1, 2, 3, 7];

/// What is tried with a row's script besides.
#[derive(Clone, Copy)]
enum Try {
    /// Where one of so many reads fails, nothing is written and the status says so.
    FailingReads(u64),
    /// Each front of the script is answered alike in pieces of any size.
    Fronts,
    /// So is the script with this byte in each place.
    Replaced(u8),
}

/// A row, as far as it was read.
#[derive(Drop)]
pub(crate) struct Row {
    words: Vec<String>,
    script: Vec<u8>,
    ends: Ends,
    tries: Vec<Try>,
    lines: Vec<u8>,
    notes: Vec<u8>,
}

impl Row {
    /// A row without words, script and lines.
    pub(crate) fn new(alloc: Global) -> Row {
        Row {
            words: Vec::new(alloc),
            script: Vec::new(alloc),
            ends: Ends::new(alloc),
            tries: Vec::new(alloc),
            lines: Vec::new(alloc),
            notes: Vec::new(alloc),
        }
    }

    /// Takes a line of the row: a word after `$ `, a part of the script after `>` or `< `, what else is so after `& `, a note
    /// after `! `, a remark after `#`, or an expected line. A line that is not of these forms is one that no script is answered with.
    pub(crate) fn take<R: Files + AllocGlobal>(&mut self, rt: &R, line: &str) -> io::Result<()> {
        let alloc = rt.alloc();
        let is_taken = if let Some(word) = line.strip_prefix("$ ") {
            let word = word.to_string(alloc)?;
            self.words.push(word)?;
            true
        } else if let Some(text) = line.strip_prefix("> ") {
            add_line(&mut self.script, text)?;
            true
        } else if let Some(times) = line.strip_prefix(">* ") {
            add_repeated(alloc, &mut self.script, times)?
        } else if let Some(range) = line.strip_prefix(">@ ") {
            add_numbered(alloc, &mut self.script, range)?
        } else if let Some(name) = line.strip_prefix("< ") {
            self.take_files(rt, name)?;
            true
        } else if let Some(note) = line.strip_prefix("! ") {
            add_line(&mut self.notes, note)?;
            true
        } else if let Some(said) = line.strip_prefix("& ") {
            self.take_said(said)?
        } else {
            line.is_empty() || line.starts_with('#')
        };
        if !is_taken {
            add_line(&mut self.lines, line)?;
        }
        Ok(())
    }

    /// The script is that of the `.red` file of this name, or of the `.smt2` file where the name ends so, and the lines are those of
    /// the `.txt` file beside it.
    fn take_files<R: Files + AllocGlobal>(&mut self, rt: &R, name: &str) -> io::Result<()> {
        let (stem, ending) = match name.strip_suffix(".smt2") {
            Some(stem) => (stem, "smt2"),
            None => (name, "red"),
        };
        let path = format!(in rt.alloc(); "{stem}.{ending}")?;
        let script = fs::read_to_string(rt, path.as_str())?;
        self.script.extend_from_slice(script.as_bytes())?;
        let path = format!(in rt.alloc(); "{stem}.txt")?;
        let lines = fs::read_to_string(rt, path.as_str())?;
        self.lines.extend_from_slice(lines.as_bytes())?;
        Ok(())
    }

    /// Takes what is said of the ends and of further tries, or says that it is not of the form.
    fn take_said(&mut self, said: &str) -> Result<bool, AllocError> {
        if said == "each front in pieces" {
            self.tries.push(Try::Fronts)?;
            return Ok(true);
        }
        let Some((what, value)) = said.split_once(": ") else {
            return Ok(false);
        };
        if what == "each byte replaced by" {
            return self.take_bytes(value);
        }
        let Ok(number) = value.parse::<u32>() else {
            return Ok(false);
        };
        self.take_number(what, number)
    }

    /// Takes the bytes, told by their numbers, by which each byte of the script is replaced.
    fn take_bytes(&mut self, numbers: &str) -> Result<bool, AllocError> {
        for number in numbers.split(' ') {
            let Ok(byte) = number.parse::<u8>() else {
                return Ok(false);
            };
            self.tries.push(Try::Replaced(byte))?;
        }
        Ok(true)
    }

    /// Takes a number that is said of the ends or of further tries.
    fn take_number(&mut self, what: &str, number: u32) -> Result<bool, AllocError> {
        match what {
            "bytes in a read" => self.ends.piece = number as usize,
            "read that fails" => self.ends.reads.push(number as u64)?,
            "write that fails" => self.ends.writes.push(number as u64)?,
            "room" => self.ends.room = number as usize,
            "reads of which each may fail" => {
                self.tries.push(Try::FailingReads(number as u64))?;
            }
            _ => return Ok(false),
        }
        Ok(true)
    }

    /// What is not as the row expects, if anything is.
    pub(crate) fn failure<R: Threads + Sync + AllocGlobal>(
        &self,
        rt: &R,
        status: &str,
    ) -> Result<Option<String>, AllocError> {
        if let Some(failure) = self.difference(rt, status)? {
            return Ok(Some(failure));
        }
        for tried in &self.tries {
            if let Some(failure) = self.tried(rt, *tried)? {
                return Ok(Some(failure));
            }
        }
        Ok(None)
    }

    /// What is found otherwise where this is tried.
    fn tried<R: Threads + Sync + AllocGlobal>(
        &self,
        rt: &R,
        tried: Try,
    ) -> Result<Option<String>, AllocError> {
        match tried {
            Try::FailingReads(count) => self.failing_read(rt, count),
            Try::Fronts => self.front(rt),
            Try::Replaced(byte) => self.replaced(rt, byte),
        }
    }

    /// The answer, where it is not the expected one.
    fn difference<R: Threads + Sync + AllocGlobal>(
        &self,
        rt: &R,
        status: &str,
    ) -> Result<Option<String>, AllocError> {
        let alloc = rt.alloc();
        let answer = self.ends.answer(rt, &self.words, &self.script)?;
        let found = answer.status;
        let number = format!(in alloc; "{found}")?;
        let lines = told(alloc, &answer.lines)?;
        let wanted = &self.lines[..self.lines.len().min(self.ends.room)];
        let notes = answer.notes.as_str();
        let is_noted = self.notes.is_empty() || notes.as_bytes() == self.notes.as_slice();
        if lines.as_slice() == wanted && number.as_str() == status && is_noted {
            return Ok(None);
        }
        let script = told(alloc, &self.script)?;
        let script = String::from_utf8_lossy(alloc, &script)?;
        let lines = String::from_utf8_lossy(alloc, &lines)?;
        Ok(Some(format!(in alloc;
            "{script}answered:\n{lines}told:\n{notes}status {found}, and {status} is expected"
        )?))
    }

    /// The first read at whose fault the answer is not the status of such faults alone.
    fn failing_read<R: Threads + Sync + AllocGlobal>(
        &self,
        rt: &R,
        count: u64,
    ) -> Result<Option<String>, AllocError> {
        let alloc = rt.alloc();
        let silent = Answer {
            lines: Vec::new(alloc),
            status: Status::ReadFault.number(),
            notes: String::new(alloc),
        };
        for read in 0..count {
            let ends = self.ends.failing_at(read)?;
            let answer = ends.answer(rt, &self.words, &self.script)?;
            if !answer.is_same(&silent) {
                return Ok(Some(format!(in alloc;
                    "where the read {read} fails the status is another"
                )?));
            }
        }
        Ok(None)
    }

    /// The first front of the script that is answered otherwise in pieces.
    fn front<R: Threads + Sync + AllocGlobal>(&self, rt: &R) -> Result<Option<String>, AllocError> {
        let alloc = rt.alloc();
        for end in 0..self.script.len() {
            if !self.is_alike(rt, &self.script[..end])? {
                return Ok(Some(format!(in alloc;
                    "the first {end} bytes are answered otherwise in pieces"
                )?));
            }
        }
        Ok(None)
    }

    /// The first place at which the script with this byte is answered otherwise in pieces.
    fn replaced<R: Threads + Sync + AllocGlobal>(
        &self,
        rt: &R,
        byte: u8,
    ) -> Result<Option<String>, AllocError> {
        let alloc = rt.alloc();
        let mut script = self.script.clone()?;
        for place in 0..script.len() {
            let before = script[place];
            script[place] = byte;
            if !self.is_alike(rt, &script)? {
                return Ok(Some(format!(in alloc;
                    "with {byte} at {place} it is answered otherwise in pieces"
                )?));
            }
            script[place] = before;
        }
        Ok(None)
    }

    /// Whether the script is answered as it is in each size of pieces.
    fn is_alike<R: Threads + Sync + AllocGlobal>(
        &self,
        rt: &R,
        script: &[u8],
    ) -> Result<bool, AllocError> {
        let whole = self.ends.answer(rt, &self.words, script)?;
        for piece in PIECES {
            let ends = self.ends.in_pieces(piece)?;
            let answer = ends.answer(rt, &self.words, script)?;
            if !answer.is_same(&whole) {
                return Ok(false);
            }
        }
        Ok(true)
    }
}
