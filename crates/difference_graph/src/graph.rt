// The graph.
use bound_values::Value;
use std::alloc::{AllocError, Global};
use std::cmp::Ordering;

/// A bound: the potential of one node is at most that of another and a weight. The tag is the caller's.
#[derive(Clone, Copy)]
pub struct Edge {
    pub from: usize,
    pub to: usize,
    pub weight: Value,
    pub tag: usize,
}

/// What comes of a new bound: it is kept; or it and others, by their tags, are a cycle of negative weight; or a number does not fit.
#[derive(Debug, Drop)]
pub enum Added {
    Kept,
    Cycle(Vec<usize>),
    Overflow,
}

// How far the search has come with a node: it stays where it is, it has to fall, or it has fallen.
#[derive(Clone, Copy, PartialEq, Eq)]
enum Mark {
    Stays,
    Falls,
    Fell,
}

// A node: its potential, the edges that leave it, and, while an edge is added, what it falls to, by how much, and the edge because of
// which.
#[derive(Drop)]
struct Node {
    potential: Value,
    leaving: Vec<usize>,
    mark: Mark,
    fall: Value,
    change: Value,
    cause: usize,
}

/// Nodes with potentials that meet all bounds (Cotton and Maler, "Fast and flexible difference constraint propagation for DPLL(T)", 2006).
#[derive(Drop)]
pub struct Graph {
    alloc: Global,
    nodes: Vec<Node>,
    edges: Vec<Edge>,
    marked: Vec<usize>,
}

// What one step of the search comes to.
#[derive(Clone, Copy, PartialEq, Eq)]
enum Progress {
    Further,
    Done,
    Cycle,
    Overflow,
}

impl Graph {
    /// No nodes and no bounds.
    pub fn new(alloc: Global) -> Graph {
        Graph {
            alloc,
            nodes: Vec::new(alloc),
            edges: Vec::new(alloc),
            marked: Vec::new(alloc),
        }
    }

    /// Adds a node, and gives its number.
    pub fn add_node(&mut self) -> Result<usize, AllocError> {
        let node = self.nodes.len();
        self.nodes.push(Node {
            potential: Value::ZERO,
            leaving: Vec::new(self.alloc),
            mark: Mark::Stays,
            fall: Value::ZERO,
            change: Value::ZERO,
            cause: 0,
        })?;
        Ok(node)
    }

    /// How many nodes there are.
    pub fn nodes(&self) -> usize {
        self.nodes.len()
    }

    /// The potential of a node.
    pub fn potential(&self, node: usize) -> Value {
        self.nodes
            .get(node)
            .map_or(Value::ZERO, |node| node.potential)
    }

    /// How many bounds there are.
    pub fn len(&self) -> usize {
        self.edges.len()
    }

    /// Whether there is no bound.
    pub fn is_empty(&self) -> bool {
        self.edges.is_empty()
    }

    /// Takes back the last bounds, so that so many are left. The potentials stay.
    pub fn truncate(&mut self, count: usize) {
        for _ in count..self.edges.len() {
            if let Some(edge) = self.edges.pop()
                && let Some(node) = self.nodes.get_mut(edge.from)
            {
                let _ = node.leaving.pop();
            }
        }
    }

    /// Adds a bound between nodes, where the potentials can be made to meet it too: nodes fall, that which has to fall most first. Else
    /// nothing changes.
    pub fn add(&mut self, edge: Edge) -> Result<Added, AllocError> {
        let place = self.edges.len();
        self.edges.push(edge)?;
        let added = self.lower(place)?;
        if let Added::Kept = added {
            self.keep(edge.from, place)?;
        } else {
            let _ = self.edges.pop();
        }
        self.unmark();
        Ok(added)
    }

    // Lets the nodes be where they fell to, and an edge leave its node.
    fn keep(&mut self, from: usize, place: usize) -> Result<(), AllocError> {
        if let Some(node) = self.nodes.get_mut(from) {
            node.leaving.push(place)?;
        }
        for marked in &self.marked {
            if let Some(node) = self.nodes.get_mut(*marked) {
                node.potential = node.fall;
            }
        }
        Ok(())
    }

    // Takes the marks away.
    fn unmark(&mut self) {
        for marked in &self.marked {
            if let Some(node) = self.nodes.get_mut(*marked) {
                node.mark = Mark::Stays;
            }
        }
        self.marked.clear();
    }

    // Finds out how nodes have to fall for the edge at a place: what each falls to stands at it afterwards.
    fn lower(&mut self, place: usize) -> Result<Added, AllocError> {
        let Some(edge) = self.edges.get(place).copied() else {
            return Ok(Added::Kept);
        };
        let mut progress = self.relax(place, edge, self.potential(edge.from))?;
        if edge.from == edge.to && progress == Progress::Further {
            progress = Progress::Cycle;
        }
        for _ in 0..self.nodes.len() {
            match progress {
                Progress::Further => {}
                Progress::Done => return Ok(Added::Kept),
                Progress::Cycle => return Ok(Added::Cycle(self.cycle(place, edge)?)),
                Progress::Overflow => return Ok(Added::Overflow),
            }
            progress = self.advance(edge)?;
        }
        Ok(Added::Kept)
    }

    // Lets the node fall that has to fall most, and marks those that have to because of it.
    fn advance(&mut self, new: Edge) -> Result<Progress, AllocError> {
        let Some(lowest) = self.lowest() else {
            return Ok(Progress::Done);
        };
        let Some(node) = self.nodes.get_mut(lowest) else {
            return Ok(Progress::Done);
        };
        node.mark = Mark::Fell;
        let potential = node.fall;
        let count = node.leaving.len();
        for index in 0..count {
            let Some((place, edge)) = self.leaving(lowest, index) else {
                break;
            };
            match self.relax(place, edge, potential)? {
                Progress::Further if edge.to == new.from => return Ok(Progress::Cycle),
                Progress::Overflow => return Ok(Progress::Overflow),
                _ => {}
            }
        }
        Ok(Progress::Further)
    }

    // The edge of a number that leaves a node.
    fn leaving(&self, node: usize, index: usize) -> Option<(usize, Edge)> {
        let place = self.nodes.get(node)?.leaving.get(index).copied()?;
        Some((place, self.edges.get(place).copied()?))
    }

    // Marks the end of an edge, if it has to fall further than is known where its beginning has a potential.
    fn relax(&mut self, place: usize, edge: Edge, from: Value) -> Result<Progress, AllocError> {
        let Some(target) = from.plus(edge.weight) else {
            return Ok(Progress::Overflow);
        };
        let Some(node) = self.nodes.get_mut(edge.to) else {
            return Ok(Progress::Done);
        };
        let present = match node.mark {
            Mark::Fell => return Ok(Progress::Done),
            Mark::Falls => node.fall,
            Mark::Stays => node.potential,
        };
        if target.compare(present) != Ordering::Less {
            return Ok(Progress::Done);
        }
        let Some(change) = target.minus(node.potential) else {
            return Ok(Progress::Overflow);
        };
        node.fall = target;
        node.change = change;
        node.cause = place;
        if node.mark == Mark::Stays {
            node.mark = Mark::Falls;
            self.marked.push(edge.to)?;
        }
        Ok(Progress::Further)
    }

    // The node that has to fall most.
    fn lowest(&self) -> Option<usize> {
        let mut best: Option<(usize, Value)> = None;
        for place in &self.marked {
            let node = self.nodes.get(*place)?;
            if node.mark == Mark::Falls
                && best.is_none_or(|(_, most)| node.change.compare(most) == Ordering::Less)
            {
                best = Some((*place, node.change));
            }
        }
        Some(best?.0)
    }

    // The tags of a cycle through an edge: from its beginning back by the causes.
    fn cycle(&self, place: usize, edge: Edge) -> Result<Vec<usize>, AllocError> {
        let mut tags = Vec::new(self.alloc);
        let mut node = edge.from;
        for _ in 0..self.nodes.len() {
            let Some(cause) = self.nodes.get(node).map(|node| node.cause) else {
                break;
            };
            let Some(step) = self.edges.get(cause) else {
                break;
            };
            tags.push(step.tag)?;
            if cause == place {
                break;
            }
            node = step.from;
        }
        Ok(tags)
    }
}
