// One product and one sum, refused exactly past the limit.
ghost use Rattle.std.specs.Prelude.{◌≡◌, ◌+ℤ◌, ◌*ℤ◌, MatchOption};
ghost use Rattle.exact_numbers.specs.Limit.{InLimit, PastLimit, checked};

/// The product, or `None` exactly where its absolute value passes 2^127 - 1.
pub fn product(a: i128, b: i128) -> Option<i128>
    ensures value { MatchOption result (PastLimit (a *ℤ b)) (λ n. (n ≡ a *ℤ b) × InLimit n) }
    ensures rule { result ≡ checked (a *ℤ b) }
{
    a.checked_mul(b).filter(|n| *n != i128::MIN)
}

/// The sum, or `None` exactly where its absolute value passes 2^127 - 1.
pub fn sum(a: i128, b: i128) -> Option<i128>
    ensures value { MatchOption result (PastLimit (a +ℤ b)) (λ n. (n ≡ a +ℤ b) × InLimit n) }
    ensures rule { result ≡ checked (a +ℤ b) }
{
    a.checked_add(b).filter(|n| *n != i128::MIN)
}
