//! What is read, with how many nodes it has.

ghost use Rattle.std.specs.Prelude.{◌≡◌, ◌+◌, ◌<◌, ◌≤◌, MatchOption};

/// What is read of a term or a formula, with its nodes; one that has more nodes than the limit is not read.
#[derive(Drop)]
pub enum Sized<T> {
    Within { nodes: u64, read: T },
    TooLarge,
}

/// The sum of the nodes, if it is not above the limit.
pub fn counted(limit: u64, nodes: u64, more: u64) -> Option<u64>
    ensures { MatchOption result (limit < nodes + more) (λ sum. (sum ≡ nodes + more) × (sum ≤ limit)) }
{
    let sum = nodes.checked_add(more)?;
    if sum <= limit { Some(sum) } else { None }
}
