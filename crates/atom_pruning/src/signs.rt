//! The signs of the names of forms that are bounded by 0.

use crate::rows::AtomRows;
use certificates::{Bound, Constraint};
use linear_forms::Linear;
use logic_meaning::VarId;
use normal_atoms::{Atom, Context, Rel, opposite};

// How many names are told from each other.
const BITS: usize = 128;

// Names with a positive coefficient, and names with a negative one: a bit for each name. Names whose numbers are the same modulo 128
// share a bit, so that more seems possible.
#[derive(Clone, Copy)]
pub(crate) struct Signs {
    positive: u128,
    negative: u128,
}

impl Signs {
    pub(crate) const NONE: Signs = Signs {
        positive: 0,
        negative: 0,
    };

    // Those of a form.
    fn of(form: &Linear) -> Signs {
        let mut signs = Signs::NONE;
        for place in 0..form.places() {
            if let Some((name, coefficient)) = form.term(place) {
                signs = signs.with(name, coefficient);
            }
        }
        signs
    }

    // These and one more.
    fn with(self, name: VarId, coefficient: i128) -> Signs {
        let bit = 1u128 << (name.number % BITS);
        if coefficient < 0 {
            Signs {
                negative: self.negative | bit,
                ..self
            }
        } else {
            Signs {
                positive: self.positive | bit,
                ..self
            }
        }
    }

    // Each sign for the other.
    fn turned(self) -> Signs {
        Signs {
            positive: self.negative,
            negative: self.positive,
        }
    }

    // Those of both.
    pub(crate) fn and(self, other: Signs) -> Signs {
        Signs {
            positive: self.positive | other.positive,
            negative: self.negative | other.negative,
        }
    }

    // Those that both have.
    pub(crate) fn common(self, other: Signs) -> Signs {
        Signs {
            positive: self.positive & other.positive,
            negative: self.negative & other.negative,
        }
    }

    // Those without the other ones.
    pub(crate) fn without(self, other: Signs) -> Signs {
        Signs {
            positive: self.positive & !other.positive,
            negative: self.negative & !other.negative,
        }
    }

    // The names, with whatever sign.
    fn names(self) -> u128 {
        self.positive | self.negative
    }

    // Whether the others have all of them.
    fn are_among(self, others: Signs) -> bool {
        self.positive & !others.positive == 0 && self.negative & !others.negative == 0
    }
}

// Whether a form is at most 0, or is 0.
#[derive(Clone, Copy, PartialEq, Eq)]
enum Kind {
    Inequality,
    Equation,
}

// A form that is at most 0, or is 0: the signs that multiples of it can give a sum, and the greatest constant.
#[derive(Clone, Copy)]
pub(crate) struct Part {
    kind: Kind,
    pub(crate) signs: Signs,
    pub(crate) constant: i128,
}

impl Part {
    // What an atom says, if it is one part.
    pub(crate) fn of_atom(context: Context, atom: &Atom) -> Option<Part> {
        match atom {
            Atom::Compare(relation, form) => Part::of_comparison(context, *relation, form),
            Atom::Congruent { .. } => None,
        }
    }

    // What the negation of an atom says, if it is one part.
    pub(crate) fn of_negation(context: Context, atom: &Atom) -> Option<Part> {
        match atom {
            Atom::Compare(relation, form) => {
                Part::of_comparison(context, opposite(*relation), form)
            }
            Atom::Congruent { .. } => None,
        }
    }

    // What it says that a form has the relation to 0.
    fn of_comparison(context: Context, relation: Rel, form: &Linear) -> Option<Part> {
        let signs = Signs::of(form);
        let constant = form.constant_part();
        let margin = margin(context);
        match relation {
            Rel::Less => Some(Part::at_most(signs, constant.saturating_add(margin))),
            Rel::AtMost => Some(Part::at_most(signs, constant)),
            Rel::Greater => Some(Part::at_most(signs.turned(), margin.saturating_sub(constant))),
            Rel::AtLeast => Some(Part::at_most(signs.turned(), 0i128.saturating_sub(constant))),
            Rel::Equal => Some(Part::equal(signs, constant)),
            Rel::Differs => None,
        }
    }

    // What the row of an atom says, if there is one.
    pub(crate) fn of_atom_row(rows: &AtomRows) -> Option<Part> {
        match &rows.holds {
            Some(row) => Some(Part::of_row(row)),
            None => None,
        }
    }

    // What the row of the negation of an atom says, if there is one.
    pub(crate) fn of_negated_row(rows: &AtomRows) -> Option<Part> {
        match &rows.fails {
            Some(row) => Some(Part::of_row(row)),
            None => None,
        }
    }

    // What a row says.
    fn of_row(row: &Constraint) -> Part {
        let signs = Signs::of(&row.form);
        let constant = row.form.constant_part();
        match row.bound {
            Bound::Equal => Part::equal(signs, constant),
            Bound::AtMost | Bound::Below => Part::at_most(signs, constant),
        }
    }

    // Whether parts with these signs can cancel each name of this one.
    pub(crate) fn is_cancelled_by(self, others: Signs) -> bool {
        match self.kind {
            Kind::Inequality => self.signs.turned().are_among(others),
            Kind::Equation => self.signs.names() & !others.names() == 0,
        }
    }

    // That a form is at most 0.
    fn at_most(signs: Signs, constant: i128) -> Part {
        Part {
            kind: Kind::Inequality,
            signs,
            constant,
        }
    }

    // That a form is 0.
    fn equal(signs: Signs, constant: i128) -> Part {
        Part {
            kind: Kind::Equation,
            signs: signs.and(signs.turned()),
            constant: constant.saturating_abs(),
        }
    }
}

// What a strict bound adds to the constant of its row.
fn margin(context: Context) -> i128 {
    match context {
        Context::Fields => 0,
        Context::Integers => 1,
    }
}

/// Whether a search for multipliers may find that the assumptions with these rows decide the atom: where each of its names stands in one
/// of them with its sign, or each with the other. It takes no memory, and no clause says what it answers.
pub fn may_be_decided(context: Context, assumed: &[AtomRows], atom: &Atom) -> bool {
    match Part::of_atom(context, atom) {
        Some(part) => {
            let given = signs_of(assumed);
            part.is_cancelled_by(given) || part.is_cancelled_by(given.turned())
        }
        None => matches!(atom, Atom::Compare(Rel::Differs, _)),
    }
}

// The signs of the rows of atoms.
fn signs_of(atoms: &[AtomRows]) -> Signs {
    let mut signs = Signs::NONE;
    for rows in atoms {
        if let Some(part) = Part::of_atom_row(rows) {
            signs = signs.and(part.signs);
        }
    }
    signs
}
