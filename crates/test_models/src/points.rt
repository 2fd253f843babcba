//! All points of a box, in lexicographic order.
use crate::words::Words;
use sm_flat::{Assignment, is_assignment};
use sqlite_items::Items;
use std::alloc::Global;

/// A side of the box, and where the point is on it.
#[derive(Clone, Copy)]
struct Side {
    low: i64,
    high: i64,
    at: i64,
}

/// A point of a box. Its numbers times the scale are numerators over the denominator.
#[derive(Drop)]
pub(crate) struct Point {
    denominator: i64,
    scale: i64,
    sides: Vec<Side>,
}

impl Point {
    /// The first point of the box that the words say: the denominator, the scale, and the ends of each side.
    pub(crate) fn new(alloc: Global, words: &mut Words<'_>) -> Point {
        let denominator = words.number();
        let scale = words.number();
        let mut sides = Vec::new(alloc);
        for _ in 0..words.most() {
            if words.is_empty() {
                break;
            }
            let low = words.number();
            let high = words.number();
            words.note(low <= high);
            words.note(sides.push(Side { low, high, at: low }).is_ok());
        }
        Point {
            denominator,
            scale,
            sides,
        }
    }

    /// Goes to the next point of the box; after the last it goes to the first, and says that there is none.
    pub(crate) fn advance(&mut self) -> bool {
        for i in (0..self.sides.len()).rev() {
            let side = self.sides[i];
            if side.at < side.high {
                self.sides[i].at = side.at + 1;
                return true;
            }
            self.sides[i].at = side.low;
        }
        false
    }

    /// The point as an assignment; none where it is none.
    pub(crate) fn assignment(&self, alloc: Global, words: &mut Words<'_>) -> Option<Assignment> {
        let mut numerators = Vec::new(alloc);
        for side in &self.sides {
            let numerator = i128::from(side.at).wrapping_mul(i128::from(self.scale));
            words.note(numerators.push(numerator).is_ok());
        }
        if !is_assignment(self.denominator, &numerators) {
            return None;
        }
        Some(Assignment::new(self.denominator, Items::from_vec(numerators)))
    }
}
