//! What is open around a token, and what may stand in it.

/// What is open: the whole statement, or a bracket of this use.
#[derive(Clone, Copy, PartialEq)]
pub enum Bracket {
    /// Outside all brackets.
    Statement,
    /// Parentheses round a formula or a term.
    Group,
    /// Parentheses round the formula of a command.
    Prime,
    /// Parentheses round the formula of a command, which assumptions may follow.
    Argument,
    /// Parentheses of a quantifier.
    Scope,
    /// Parentheses of a congruence, in this part.
    Congruence(Part),
    /// Parentheses round a formula and a point.
    Pointed,
    /// Parentheses round a formula and axes.
    Grid,
    /// Parentheses round constraints.
    Certificate,
    /// Parentheses round constraints and multipliers.
    Check,
    /// Parentheses round constraints and a target.
    Problem,
    /// Braces round atoms.
    Atoms(Atoms),
}

/// A part of a congruence or of the values of an axis, each of which has three.
#[derive(Clone, Copy, PartialEq)]
pub enum Part {
    First,
    Second,
    Last,
}

impl Part {
    /// The part behind the comma that follows this one.
    pub fn next(self) -> Option<Part> {
        match self {
            Part::First => Some(Part::Second),
            Part::Second => Some(Part::Last),
            Part::Last => None,
        }
    }
}

/// What atoms in braces are.
#[derive(Clone, Copy, PartialEq)]
pub enum Atoms {
    /// Assumptions of the command whose argument is open.
    Given,
    /// Standing assumptions.
    Assumed,
    /// Constraints of `rlcert`.
    Certified,
    /// Constraints of `rlcheck`.
    Checked,
    /// Constraints of `rlopt`.
    Weak,
}

/// What is wanted in a bracket.
#[derive(Clone, Copy, PartialEq)]
pub enum Wants {
    /// A formula or a term.
    Either,
    Formula,
    /// A formula that nothing joins, since it is the argument of a query.
    Query,
    Term,
    /// A comparison or a congruence.
    Atom,
    /// A comparison.
    Comparison,
}

/// The side of a comparison.
#[derive(Clone, Copy, PartialEq)]
pub enum Side {
    Left,
    Right,
}

/// What stands before a factor in its product.
#[derive(Clone, Copy, PartialEq)]
pub enum Factor {
    First,
    Multiplied,
    Divided,
}

/// What is open, as far as it was read: what is wanted, on which side of a comparison the next token stands, whether it stands in a sum or a
/// product, and whether the product, and the term, has a name so far.
#[derive(Clone, Copy)]
pub struct Open {
    pub bracket: Bracket,
    pub wants: Wants,
    pub side: Side,
    pub is_term: bool,
    pub factor: Factor,
    pub product_has_name: bool,
    pub has_name: bool,
}

impl Open {
    /// A bracket in which nothing was read yet.
    pub fn new(bracket: Bracket, wants: Wants) -> Open {
        Open {
            bracket,
            wants,
            side: Side::Left,
            is_term: false,
            factor: Factor::First,
            product_has_name: false,
            has_name: false,
        }
    }

    /// Whether a formula that is no comparison may begin here.
    pub fn may_begin_formula(&self) -> bool {
        self.is_fresh() && matches!(self.wants, Wants::Either | Wants::Formula)
    }

    /// Whether a congruence may begin here.
    pub fn may_begin_congruence(&self) -> bool {
        self.is_fresh() && matches!(self.wants, Wants::Either | Wants::Formula | Wants::Atom)
    }

    /// Whether a relation may follow a term here.
    pub fn may_compare(&self) -> bool {
        self.side == Side::Left && !matches!(self.wants, Wants::Term | Wants::Query)
    }

    /// Whether a formula may be joined here.
    pub fn may_join(&self) -> bool {
        matches!(self.wants, Wants::Either | Wants::Formula)
    }

    /// Whether nothing of a comparison was read.
    fn is_fresh(&self) -> bool {
        self.side == Side::Left && !self.is_term
    }

    /// Begins a comparison or a formula anew.
    pub fn begin(&mut self, wants: Wants) {
        *self = Open::new(self.bracket, wants);
    }

    /// Begins the next product of a sum.
    pub fn begin_product(&mut self) {
        self.is_term = true;
        self.factor = Factor::First;
        self.product_has_name = false;
    }

    /// Begins the right side of a comparison.
    pub fn begin_right(&mut self) {
        self.begin(self.wants);
        self.side = Side::Right;
    }
}
