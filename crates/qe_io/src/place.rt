/// Where a byte stands in a script: its line and its column, each from 1. A column counts characters of UTF-8, and each byte that is part of
/// none counts as one.
#[derive(Clone, Copy, Debug, PartialEq, Eq)]
pub struct Place {
    pub line: u64,
    pub column: u64,
}

impl Place {
    /// The place of the first byte.
    pub const FIRST: Place = Place { line: 1, column: 1 };
}

/// A character whose first bytes have come: how many it still awaits and how many have come behind the first, and the least and the
/// greatest byte that may come next.
#[derive(Clone, Copy)]
struct Begun {
    awaited: u8,
    came: u8,
    least: u8,
    greatest: u8,
}

/// The place of the byte that comes next. Numbers stop at the greatest of 64 bits.
#[derive(Clone, Copy)]
pub struct PlaceCounter {
    place: Place,
    begun: Option<Begun>,
}

impl PlaceCounter {
    /// Before the first byte of a script.
    pub fn new() -> PlaceCounter {
        PlaceCounter::at(Place::FIRST)
    }

    /// Before the byte at this place.
    pub fn at(place: Place) -> PlaceCounter {
        PlaceCounter { place, begun: None }
    }

    /// The place of the next byte, which begins a character or is part of none.
    pub fn place(&self) -> Place {
        self.place
    }

    /// Passes these bytes.
    pub fn pass(&mut self, bytes: &[u8]) {
        let Some(last) = bytes.iter().rposition(|byte| *byte == b'\n') else {
            self.pass_in_line(bytes);
            return;
        };
        let (lines, rest) = bytes.split_at(last);
        let ends = lines.iter().filter(|byte| **byte == b'\n').count();
        self.place = Place {
            line: self
                .place
                .line
                .saturating_add(ends as u64)
                .saturating_add(1),
            column: 1,
        };
        self.begun = None;
        self.pass_in_line(rest.get(1..).unwrap_or(&[]));
    }

    /// Passes bytes without the end of a line.
    fn pass_in_line(&mut self, bytes: &[u8]) {
        if self.begun.is_none() && bytes.iter().all(|byte| *byte < 0x80) {
            self.count(bytes.len() as u64);
            return;
        }
        for byte in bytes {
            self.take(*byte);
        }
    }

    /// Passes one byte of a line.
    fn take(&mut self, byte: u8) {
        if byte >= 0x80 {
            self.take_part(byte);
        } else {
            self.give_up();
            self.count(1);
        }
    }

    /// Passes a byte that is no character by itself.
    fn take_part(&mut self, byte: u8) {
        match self.begun {
            Some(begun) if begun.least <= byte && byte <= begun.greatest => {
                self.begun = begun.with_next();
            }
            _ => {
                self.give_up();
                self.count(1);
                self.begun = Begun::by(byte);
            }
        }
    }

    /// What was begun is no character, so each byte of it counts.
    fn give_up(&mut self) {
        if let Some(begun) = self.begun.take() {
            self.count(u64::from(begun.came));
        }
    }

    /// Moves so many columns on.
    fn count(&mut self, columns: u64) {
        self.place.column = self.place.column.saturating_add(columns);
    }
}

impl Begun {
    /// The character that this byte begins, if it begins one of several bytes.
    fn by(byte: u8) -> Option<Begun> {
        let (awaited, least, greatest) = match byte {
            0xc2..=0xdf => (1, 0x80, 0xbf),
            0xe0 => (2, 0xa0, 0xbf),
            0xed => (2, 0x80, 0x9f),
            0xe1..=0xef => (2, 0x80, 0xbf),
            0xf0 => (3, 0x90, 0xbf),
            0xf1..=0xf3 => (3, 0x80, 0xbf),
            0xf4 => (3, 0x80, 0x8f),
            _ => return None,
        };
        Some(Begun {
            awaited,
            came: 0,
            least,
            greatest,
        })
    }

    /// With one more byte; none where the character is whole.
    fn with_next(self) -> Option<Begun> {
        if self.awaited < 2 {
            return None;
        }
        Some(Begun {
            awaited: self.awaited - 1,
            came: self.came.saturating_add(1),
            least: 0x80,
            greatest: 0xbf,
        })
    }
}

/// The places of bytes of one text, asked from the front to the back.
#[derive(Clone, Copy)]
pub struct Places {
    passed: usize,
    next: PlaceCounter,
}

impl Places {
    /// Of a text whose first byte stands at this place.
    pub fn from(first: Place) -> Places {
        Places {
            passed: 0,
            next: PlaceCounter::at(first),
        }
    }

    /// The place of the byte of the text at this offset, which is not before the one asked last.
    pub fn reach(&mut self, text: &[u8], offset: usize) -> Place {
        if let Some(between) = text.get(self.passed..offset) {
            self.next.pass(between);
            self.passed = offset;
        }
        self.next.place()
    }
}
