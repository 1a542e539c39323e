//! What the steps of an elimination may cost.

ghost use Rattle.std.specs.Prelude.{◌≡◌, ◌<◌, ◌≤◌, ◌+◌, ◌*◌, ◌^◌, ◌/◌, ◌-◌, min, IfSome, OnOk, OnErr, IfErr};
ghost use Rattle.branch_rounds.specs.declared.error.RoundError.TheVariants.{Nodes};

use crate::error::RoundError;

/// How many nodes one elimination may make: some ten seconds.
const ENGINE_NODES: u128 = 10_000_000;

/// How many formulas one elimination may add to a store before it takes steps at one point alone: some 512 MB, at up to 860 bytes.
const MOST_FORMULAS: usize = 600_000;

/// Of so many nodes that a step makes, one at most is counted as a new formula: the others are there before, or small.
const NODES_OF_FORMULA: u128 = 4;

/// What the search for certificates may do in one elimination, in entries of its tables that are changed: some ten seconds.
const SEARCH_EFFORT: u64 = 1_000_000_000;

/// How many nodes the questions may make that are asked in one elimination to shorten formulas: a second or two.
const QUESTIONS: u128 = 2_000_000;

/// How many nodes one of them may make.
const QUESTION_MOST: u128 = 200_000;

/// How many nodes one of them costs at least.
const QUESTION_LEAST: u128 = 250;

/// How many large questions may be asked in one elimination.
const LARGE_QUESTIONS: u8 = 4;

/// How many nodes a large question may make: some seconds.
const LARGE_MOST: u128 = 4_000_000;

/// What the search for certificates may do in a question.
const QUESTION_EFFORT: u64 = 10_000_000;

/// The nodes that may still be made, what the search for certificates may still do, and the nodes that
/// questions may still make. A step at so many points costs as many times the nodes of its branch and two more, before the first is
/// put in. Once an elimination has added 600,000 formulas to the store, it takes only steps at one point.
#[derive(Clone, Copy, Debug, PartialEq, Eq)]
pub struct Budget {
    pub nodes: u128,
    /// With how many formulas in the store only steps at one point are taken; it is set by the first step.
    full: Option<usize>,
    pub(crate) effort: u64,
    questions: u128,
    large_questions: u8,
}

impl Budget {
    /// That of an elimination under a limit of nodes: the engine's own, and at least twice the limit and eight. So one point can be
    /// put into each formula within the limit.
    pub fn of_limit(limit: u64) -> Budget
        ensures { 2 * limit + 8 ≤ result.nodes }
    {
        Budget {
            nodes: ENGINE_NODES.max(2 * limit as u128 + 8),
            full: None,
            effort: SEARCH_EFFORT,
            questions: QUESTIONS,
            large_questions: LARGE_QUESTIONS,
        }
    }

    /// The budget of a question that is asked to shorten a formula, of at most 200,000 nodes; none where nothing is left for questions.
    pub fn question(&self) -> Option<Budget>
        ensures { IfSome result (λ b. b.nodes ≤ 200000) }
    {
        if self.questions == 0 {
            return None;
        }
        Some(self.of_question(self.questions.min(QUESTION_MOST)))
    }

    /// The budget of a large question, of at most 4,000,000 nodes; none where four have been asked.
    pub fn large_question(&mut self) -> Option<Budget>
        ensures question { IfSome result (λ b. b.nodes ≤ 4000000) }
        ensures nodes { self.new.nodes ≡ self.old.nodes }
    {
        self.large_questions = self.large_questions.checked_sub(1)?;
        Some(self.of_question(LARGE_MOST))
    }

    // The budget of a question of so many nodes, in which no others are asked.
    fn of_question(&self, nodes: u128) -> Budget
        ensures { result.nodes ≡ nodes }
    {
        Budget {
            nodes,
            full: self.full,
            effort: self.effort.min(QUESTION_EFFORT),
            questions: 0,
            large_questions: 0,
        }
    }

    /// Takes off what a question cost, of whose budget this is left: at least 250 of the nodes for questions, and what the search for
    /// certificates did. The nodes of the elimination stay.
    pub fn pay_question(&mut self, left: &Budget)
        ensures { self.new.nodes ≡ self.old.nodes }
    {
        let nodes = self.questions.min(QUESTION_MOST).saturating_sub(left.nodes);
        self.questions = self.questions.saturating_sub(nodes.max(QUESTION_LEAST));
        self.pay_search(left);
    }

    /// Takes off what the search for certificates did in a question, of whose budget this is left.
    pub fn pay_search(&mut self, left: &Budget)
        ensures { self.new.nodes ≡ self.old.nodes }
    {
        let effort = self.effort.min(QUESTION_EFFORT).saturating_sub(left.effort);
        self.effort = self.effort.saturating_sub(effort);
    }

    /// What the search for certificates may still do, in entries of its tables that are changed.
    pub fn effort(&mut self) -> &mut u64 {
        &mut self.effort
    }

    /// Notes at the first step of an elimination how many formulas the store has.
    pub(crate) fn begin(&mut self, formulas: usize)
        ensures { self.new.nodes ≡ self.old.nodes }
    {
        if self.full.is_none() {
            self.full = Some(formulas.saturating_add(MOST_FORMULAS));
        }
    }

    /// At how many points a branch of so many nodes can be worked on, at most, beside so many formulas in the store. One point
    /// is stopped by the nodes alone.
    pub(crate) fn most(&self, nodes: u64, formulas: usize) -> u64
        ensures paid { result ≤ self.now.nodes / (nodes + 2) }
        ensures one { nodes + 2 ≤ self.now.nodes → 1 ≤ result }
    {
        let paid = self.nodes / (nodes as u128 + 2);
        let distinct = nodes.min(formulas as u64) as u128;
        let room = self.room(formulas) as u128 * NODES_OF_FORMULA / (distinct + 2);
        paid.min(room.max(1)).min(u64::MAX as u128) as u64
    }

    // How many formulas can be added to a store that has so many, before it is full.
    fn room(&self, formulas: usize) -> usize {
        match self.full {
            Some(full) => full.saturating_sub(formulas),
            None => MOST_FORMULAS,
        }
    }

    /// Takes off what a step at so many points costs on a branch of so many nodes. Its only error is `Nodes`, exactly where that is
    /// more than there is, and then nothing is taken off.
    pub(crate) fn pay(&mut self, points: usize, nodes: u64) -> Result<(), RoundError>
        ensures paid { OnOk result (self.new.nodes + points * (nodes + 2) ≡ self.old.nodes) }
        ensures dear { OnErr result (self.old.nodes < points * (nodes + 2)) }
        ensures unchanged { OnErr result (self.new ≡ self.old) }
        ensures word { IfErr result (λ e. e ≡ Nodes) }
    {
        let cost = points as u128 * (nodes as u128 + 2);
        if self.nodes < cost {
            return Err(RoundError::Nodes);
        }
        self.nodes -= cost;
        Ok(())
    }
}
