ghost use Rattle.std.specs.Prelude.{◌≡◌, IfOk, IfErr, OnOk};
ghost use Rattle.program_meaning.specs.Reading.{IsRead};
ghost use Rattle.smtlib_front.specs.Stops.{ReadStops};

use program_meaning::Source;
use qe_io::StreamStop;
use std::alloc::Global;

/// A script is at most so long, in bytes.
const SCRIPT_LIMIT: usize = 16_777_216;

/// At most so many bytes are read at once.
const READ_SIZE: usize = 16_384;

/// All bytes of the source, where they are within the limit.
pub fn read_whole<S: Source>(alloc: Global, source: &mut S) -> Result<Vec<u8>, StreamStop>
    ensures read { IfOk result (λ script. IsRead (S.left source.old) (S.left source.new) script.items) }
    ensures no_fault { OnOk result (S.faults source.new ≡ S.faults source.old) }
    ensures stop { IfErr result (ReadStops (S.left source.old) (S.left source.new) (S.faults source.old) (S.faults source.new)) }
{
    let mut script = Vec::new(alloc);
    let mut buffer = [0u8; READ_SIZE];
    'reads: loop {
        let count = source.read(&mut buffer)?;
        if count == 0 {
            return Ok(script);
        }
        if count > SCRIPT_LIMIT - script.len() {
            return Err(StreamStop::Long);
        }
        script.extend_from_slice(&buffer[..count])?;
    }
}
