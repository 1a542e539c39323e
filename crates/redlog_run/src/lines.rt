ghost use Rattle.std.specs.Prelude.{◌≤◌, length};

use qe_io::{Place, PlaceCounter};
use redlog_tokens::is_blank;

/// The places of the pieces of a script, whose bytes come read by read. Bytes are counted where a place is wanted, and where a read ends.
#[derive(Clone, Copy)]
pub struct Lines {
    /// How many bytes of the read are counted.
    counted: usize,
    next: PlaceCounter,
    open: Open,
}

/// What the bytes so far leave open: blanks or a comment before a piece, or a piece that begins at this place.
#[derive(Clone, Copy)]
enum Open {
    Blanks,
    Comment,
    Piece(Place),
}

/// A part of a read: the bytes with which a piece ends, or the last ones, in which none does. Pieces end before it, at the end of the earlier
/// bytes, and so many bytes are left behind it.
#[derive(Clone, Copy)]
pub struct Part<'a> {
    pub earlier: &'a [u8],
    pub bytes: &'a [u8],
    pub left: usize,
}

impl Lines {
    /// Before the first byte of a script.
    pub fn new() -> Lines {
        Lines {
            counted: 0,
            next: PlaceCounter::new(),
            open: Open::Blanks,
        }
    }

    /// The place of the first token of the piece that ends with this part, or of its end where it has none.
    pub fn place(&mut self, part: &Part<'_>) -> Place {
        self.reach(part.earlier);
        let mut lines = *self;
        lines.count(part.bytes);
        match lines.open {
            Open::Piece(place) => place,
            Open::Blanks | Open::Comment => lines.next.place(),
        }
    }

    /// Passes a part with which a piece ends.
    pub fn end(&mut self, part: &Part<'_>) {
        if part.left == 0 {
            self.leave(part);
            self.open = Open::Blanks;
        }
    }

    /// Passes the last part of a read.
    pub fn leave(&mut self, part: &Part<'_>) {
        self.reach(part.earlier);
        self.count(part.bytes);
        self.counted = 0;
    }

    /// Counts the earlier bytes of a read, with which a piece ends.
    fn reach(&mut self, earlier: &[u8]) {
        let between = earlier.get(self.counted..).unwrap_or(&[]);
        if !between.is_empty() {
            self.next.pass(between);
            self.counted = earlier.len();
            self.open = Open::Blanks;
        }
    }

    /// Counts bytes in which no piece ends, or whose last one is its end.
    fn count(&mut self, bytes: &[u8]) {
        let before = self.before_piece(bytes);
        let (front, piece) = bytes.split_at(before);
        self.next.pass(front);
        if !piece.is_empty() {
            self.begin();
        }
        self.next.pass(piece);
    }

    /// A piece begins here, where none is open.
    fn begin(&mut self) {
        if let Open::Blanks | Open::Comment = self.open {
            self.open = Open::Piece(self.next.place());
        }
    }

    /// How many of the bytes stand before the piece.
    fn before_piece(&mut self, bytes: &[u8]) -> usize
        ensures { result ≤ length bytes.now }
    {
        for (count, byte) in bytes.iter().enumerate() {
            match self.open {
                Open::Piece(_) => return count,
                Open::Comment if *byte == b'\n' => self.open = Open::Blanks,
                Open::Comment => (),
                Open::Blanks if *byte == b'%' => self.open = Open::Comment,
                Open::Blanks if is_blank(*byte) => (),
                Open::Blanks => return count,
            }
        }
        bytes.len()
    }
}
