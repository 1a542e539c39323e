// The laws of whole numbers and fractions that other crates build on. Each holds for all numbers, however large.
ghost use Rattle.std.specs.Prelude.{◌≡◌, ◌↔◌, ℕ, ℤ, pos, ◌+ℤ◌, ◌*ℤ◌, ◌<ℤ◌, List, MatchOption};
ghost use Rattle.exact_numbers.specs.Divides.{Divides, IsGcd, gcd_of, lcm_of, floor_of, residue_of, content_of};
ghost use Rattle.exact_numbers.specs.Division.{IsLcm, Combines, IsFloor, IsResidue, Solves, IsContent};
ghost use Rattle.exact_numbers.specs.Frac.{Frac, IsProper, sum_step, product_step, power_steps};
ghost use Rattle.exact_numbers.specs.ExactSteps.{SumPasses, IsExactSum, ProductPasses, IsExactProduct, PowerPasses, IsExactPower};

/// Two whole numbers combine to their greatest common divisor (Bezout's identity).
pub fn bezout()
    ensures { (a b g : ℤ) → IsGcd a b g → Combines a b g }
{}

/// There is exactly one greatest common divisor, and `gcd_of` is it.
pub fn greatest_common_divisor()
    ensures is_one { (a b : ℤ) → IsGcd a b (gcd_of a b) }
    ensures only_one { (a b g : ℤ) → IsGcd a b g → g ≡ gcd_of a b }
{}

/// The least common multiple of two positive numbers is `lcm_of`, and it divides exactly the common multiples.
pub fn least_common_multiple_divides()
    ensures is_one { (a b : ℤ) → pos 0 <ℤ a → pos 0 <ℤ b → IsLcm a b (lcm_of a b) }
    ensures divides { (a b m n : ℤ) → IsLcm a b m → (Divides m n ↔ (Divides a n × Divides b n)) }
{}

/// For a positive divisor there are exactly one quotient rounded down and one residue.
pub fn floor_and_residue()
    ensures floor { (a b : ℤ) → pos 0 <ℤ b → IsFloor a b (floor_of a b) }
    ensures only_floor { (a b q : ℤ) → pos 0 <ℤ b → IsFloor a b q → q ≡ floor_of a b }
    ensures residue { (a m : ℤ) → pos 0 <ℤ m → IsResidue a m (residue_of a m) }
    ensures only_residue { (a m r : ℤ) → pos 0 <ℤ m → IsResidue a m r → r ≡ residue_of a m }
{}

/// `a x ≡ c` modulo `m` has a solution exactly where the greatest common divisor of `a` and `m` divides `c`.
pub fn congruence_is_solved()
    ensures { (a c m g : ℤ) → IsGcd a m g → (Solves a c m ↔ Divides g c) }
{}

/// Whether `m` divides `a x + c` repeats with every multiple of `m` that is added to `x`.
pub fn congruence_repeats()
    ensures { (a x t c m : ℤ) → Divides m t → (Divides m (a *ℤ x +ℤ c) ↔ Divides m (a *ℤ (x +ℤ t) +ℤ c)) }
{}

/// A list of whole numbers has exactly one greatest common divisor, and `content_of` is it.
pub fn content()
    ensures is_one { (xs : List ℤ) → IsContent xs (content_of xs) }
    ensures only_one { (xs : List ℤ) (g : ℤ) → IsContent xs g → g ≡ content_of xs }
{}

/// Each step of the fraction rule gives the true value in lowest terms, or one of the numbers that it forms passes
/// the limit.
pub fn fraction_rule()
    ensures sum { (p q : Frac) → IsProper p → IsProper q → MatchOption (sum_step p q) (SumPasses p q) (IsExactSum p q) }
    ensures product { (p q : Frac) → IsProper p → IsProper q → MatchOption (product_step p q) (ProductPasses p q) (IsExactProduct p q) }
    ensures power { (p : Frac) (n : ℕ) → IsProper p → MatchOption (power_steps p n) (PowerPasses p n) (IsExactPower p n) }
{}
