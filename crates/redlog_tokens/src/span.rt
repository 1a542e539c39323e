ghost use Rattle.std.specs.Prelude.{◌≡◌, ◌≤◌, length, take};
ghost use Rattle.redlog_tokens.specs.Spans.{passes, commented, span, comment_after};

/// Bytes that are passed over: those between tokens, or those inside a piece, up to its end mark.
#[derive(Clone, Copy)]
pub enum Passed {
    Between,
    Inside,
}

/// Bytes at the front: how many they are, and whether a comment is open after them.
#[derive(Clone, Copy)]
pub struct Front {
    pub length: usize,
    pub comment: bool,
}

/// The bytes at the front that are passed over, where a comment is open before them or none is.
pub fn front_of(passed: Passed, mut comment: bool, bytes: &[u8]) -> Front
    ensures length { result.length ≡ span passed comment bytes.now }
    ensures within { result.length ≤ length bytes.now }
    ensures comment { result.comment ≡ comment_after comment (take result.length bytes.now) }
{
    for (length, byte) in bytes.iter().enumerate() {
        if !passes(passed, comment, *byte) {
            return Front { length, comment };
        }
        comment = commented(comment, *byte);
    }
    Front {
        length: bytes.len(),
        comment,
    }
}

/// Whether a byte is passed over. All bytes of a comment are.
fn passes(passed: Passed, comment: bool, byte: u8) -> bool
    ensures { result ≡ passes passed comment byte }
{
    match passed {
        _ if comment => true,
        Passed::Between => matches!(byte, b'\t' | b'\n' | b'\r' | b' ' | b'%'),
        Passed::Inside => byte != b';' && byte != b'$',
    }
}

/// Whether a comment is open after this byte.
fn commented(comment: bool, byte: u8) -> bool
    ensures { result ≡ commented comment byte }
{
    if comment { byte != b'\n' } else { byte == b'%' }
}
