// The order in which variables are decided: by how often and how recently they stood in conflicts.
use std::alloc::{AllocError, Global};

// The factor by which a conflict weighs more than the one before it, and the weight past which all are made small.
const GROWTH: f64 = 1.0526315789473684;

const MOST: f64 = 1e100;

const SHRINKING: f64 = 1e-100;

// How far a heap's path can go.
const DEPTH: u32 = 64;

// A heap of variables, of which the greatest weight is at the top (Moskewicz and others, "Chaff: engineering an efficient SAT solver",
// 2001).
#[derive(Drop)]
pub(crate) struct Order {
    weights: Vec<f64>,
    heap: Vec<usize>,
    places: Vec<Option<usize>>,
    step: f64,
}

impl Order {
    pub(crate) fn new(alloc: Global) -> Order {
        Order {
            weights: Vec::new(alloc),
            heap: Vec::new(alloc),
            places: Vec::new(alloc),
            step: 1.0,
        }
    }

    // Adds the next variable.
    pub(crate) fn add(&mut self) -> Result<(), AllocError> {
        let variable = self.weights.len();
        self.weights.push(0.0)?;
        self.places.push(None)?;
        self.put(variable)
    }

    // Puts a variable into the heap, if it does not stand there.
    pub(crate) fn put(&mut self, variable: usize) -> Result<(), AllocError> {
        if let Some(None) = self.places.get(variable) {
            let place = self.heap.len();
            self.heap.push(variable)?;
            self.write(place, variable);
            self.rise(place);
        }
        Ok(())
    }

    // Takes the variable with the greatest weight out.
    pub(crate) fn pop(&mut self) -> Option<usize> {
        let top = self.heap.first().copied()?;
        let last = self.heap.pop()?;
        if let Some(place) = self.places.get_mut(top) {
            *place = None;
        }
        if last != top {
            self.write(0, last);
            self.sink(0);
        }
        Some(top)
    }

    // Lets a variable weigh more, by the weight of the conflict.
    pub(crate) fn raise(&mut self, variable: usize) {
        if let Some(weight) = self.weights.get_mut(variable) {
            *weight += self.step;
            if MOST < *weight {
                self.shrink();
            }
        }
        if let Some(Some(place)) = self.places.get(variable).copied() {
            self.rise(place);
        }
    }

    // Lets the next conflict weigh more.
    pub(crate) fn age(&mut self) {
        self.step *= GROWTH;
    }

    // Makes all weights small.
    fn shrink(&mut self) {
        for weight in self.weights.iter_mut() {
            *weight *= SHRINKING;
        }
        self.step *= SHRINKING;
    }

    // The weight of a variable.
    #[inline(always)]
    fn weight(&self, variable: usize) -> f64 {
        self.weights.get(variable).copied().unwrap_or(0.0)
    }

    // Writes a variable to a place of the heap.
    #[inline(always)]
    fn write(&mut self, place: usize, variable: usize) {
        if let Some(entry) = self.heap.get_mut(place) {
            *entry = variable;
        }
        if let Some(entry) = self.places.get_mut(variable) {
            *entry = Some(place);
        }
    }

    // Moves what stands at a place up, past lighter ones.
    fn rise(&mut self, place: usize) {
        let Some(variable) = self.heap.get(place).copied() else {
            return;
        };
        let weight = self.weight(variable);
        let mut place = place;
        for _ in 0..DEPTH {
            if place == 0 {
                break;
            }
            let above = place.saturating_sub(1) / 2;
            let Some(other) = self.heap.get(above).copied() else {
                break;
            };
            if weight <= self.weight(other) {
                break;
            }
            self.write(place, other);
            place = above;
        }
        self.write(place, variable);
    }

    // Moves what stands at a place down, past heavier ones.
    fn sink(&mut self, place: usize) {
        let Some(variable) = self.heap.get(place).copied() else {
            return;
        };
        let weight = self.weight(variable);
        let mut place = place;
        for _ in 0..DEPTH {
            let Some((below, other)) = self.heavier_below(place) else {
                break;
            };
            if self.weight(other) <= weight {
                break;
            }
            self.write(place, other);
            place = below;
        }
        self.write(place, variable);
    }

    // The heavier one of the two below a place, and where it stands.
    fn heavier_below(&self, place: usize) -> Option<(usize, usize)> {
        let left = place.saturating_mul(2).saturating_add(1);
        let right = left.saturating_add(1);
        let one = self.heap.get(left).copied()?;
        match self.heap.get(right).copied() {
            Some(other) if self.weight(one) < self.weight(other) => Some((right, other)),
            _ => Some((left, one)),
        }
    }
}
