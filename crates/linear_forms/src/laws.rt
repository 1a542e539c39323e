// The laws of linear forms that other crates build on.
ghost use Rattle.std.specs.Prelude.{◌≡◌, ℕ, ℤ, pos, ◌+ℤ◌, ◌*ℤ◌, Some, slice_get};
ghost use Rattle.logic_meaning.specs.Point.{Point};
ghost use Rattle.logic_meaning.specs.Form.{Form, Term, value, coefficient, without};
ghost use Rattle.linear_forms.specs.Combinations.{IsLinear, IsCombination, IsQuotient};

/// A form is determined by its coefficients and its constant; so there is one combination, and one quotient.
pub fn form_is_determined()
    ensures form { (f g : Form) → IsLinear f → IsLinear g → ((x : ℕ) → coefficient x f ≡ coefficient x g) → f.constant ≡ g.constant → f ≡ g }
    ensures combination { (a : ℤ) (f : Form) (b : ℤ) (g r s : Form) → IsCombination a f b g r → IsCombination a f b g s → r ≡ s }
    ensures quotient { (f : Form) (d : ℤ) (r s : Form) → ¬ (d ≡ pos 0) → IsQuotient f d r → IsQuotient f d s → r ≡ s }
{}

/// A form is the multiple of a name and the form without the name, in which the name has the coefficient 0.
pub fn form_splits()
    ensures value { (x : ℕ) (f : Form) (p : Point ℕ) → value f p ≡ coefficient x f *ℤ p.at x +ℤ value (without x f) p }
    ensures linear { (x : ℕ) (f : Form) → IsLinear f → IsLinear (without x f) }
    ensures coefficient { (x : ℕ) (f : Form) → coefficient x (without x f) ≡ pos 0 }
{}

/// The number beside a name in the list is the coefficient of the name.
pub fn terms_have_coefficients()
    ensures { (f : Form) (i : ℕ) (t : Term) → IsLinear f → slice_get f.terms i ≡ Some t → coefficient t.name f ≡ t.times }
{}
