//! What is proved of every store, of every overlay, and of what was made in one.

ghost use Rattle.std.specs.Prelude.{◌≡◌, ◌≤◌, List, length};
ghost use Rattle.formula_tree.specs.declared.shape.Shape.{Shape};
ghost use Rattle.formula_store.specs.declared.id.FormulaId.{FormulaId};
ghost use Rattle.logic_meaning.specs.Every.{Every};
ghost use Rattle.logic_meaning.specs.Numbers.{IsAtomInLimit};
ghost use Rattle.formula_store.specs.Changes.{Change, Grows, tree_on};
ghost use Rattle.formula_store.specs.Layers.{Layers, all};
ghost use Rattle.formula_store.specs.Nodes.{IsId, tree};

/// Two ids of one store are equal where their formulas are.
#[tactic(auto, using(crate::proofs::Same::same_tree))]
pub fn one_formula_has_one_id()
    ensures { (nodes : List (Shape FormulaId)) → (x y : FormulaId) → IsId nodes x → IsId nodes y → tree nodes x ≡ tree nodes y → x ≡ y }
{}

/// Each number of the atoms of a stored formula, its moduli too, is within 2^127 - 1.
#[tactic(auto, using(crate::proofs::Numbers::numbers_are_within))]
pub fn stored_numbers_are_within()
    ensures { (nodes : List (Shape FormulaId)) → (id : FormulaId) → IsId nodes id → Every IsAtomInLimit (tree nodes id) }
{}

/// Two ids of one overlay are equal where their formulas are, whether these stand in the store or beside it.
#[tactic(auto, using(crate::proofs::Same::same_tree))]
pub fn one_formula_has_one_id_beside()
    ensures { (o : Layers) → (x y : FormulaId) → IsId (all o) x → IsId (all o) y → tree (all o) x ≡ tree (all o) y → x ≡ y }
{}

/// What was made beside a store stands for the same formula while nodes are only added to the store.
#[tactic(auto, using(crate::proofs::Grown::stays_on))]
pub fn change_stays()
    ensures { (old now : List (Shape FormulaId)) (d : Change) → d.begun ≤ length old → Grows old now → tree_on now d ≡ tree_on old d }
{}
