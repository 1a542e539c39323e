ghost use Rattle.std.specs.Prelude.{◌≡◌, OnOk, OnErr};
ghost use Rattle.program_meaning.specs.Ends.{TookFront};
ghost use Rattle.program_meaning.specs.Streams.{Took, Rose};

use program_meaning::{Sink, WriteFailed};

/// Writes all the bytes. After an `Err` some bytes in front were written.
pub fn write_all<K: Sink>(sink: &mut K, bytes: &[u8]) -> Result<(), WriteFailed>
    ensures wrote { OnOk result (Took (K.wrote sink.old) (K.wrote sink.new) bytes.now) }
    ensures no_fault { OnOk result (K.faults sink.new ≡ K.faults sink.old) }
    ensures fault { OnErr result (Rose (K.faults sink.old) (K.faults sink.new)) }
    ensures front { OnErr result (TookFront (K.wrote sink.old) (K.wrote sink.new) bytes.now) }
{
    let mut written = 0;
    while written < bytes.len() {
        written += sink.write(&bytes[written..])?;
    }
    Ok(())
}
