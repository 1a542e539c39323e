ghost use Rattle.std.specs.Prelude.{◌≡◌, ◌≤◌, length, take};

/// Copies the first `count` bytes to the front of the slice.
pub(crate) fn copy_front(from: &[u8], into: &mut [u8], count: usize)
    requires enough { count ≤ length from.now }
    requires room { count ≤ length into.old }
    ensures { take count into.new ≡ take count from.now }
{
    into[..count].copy_from_slice(&from[..count]);
}
