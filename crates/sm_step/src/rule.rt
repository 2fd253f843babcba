//! The rules by which a line infers.
use crate::short::Short;

/// A rule of inference, with the constraint `k` that it names and its other arguments.
#[derive(Drop)]
pub enum Rule {
    /// Bounds of a linear row; half 0 is `>=`, half 1 the turned row.
    Sum {
        k: u32,
        half: u32,
    },
    /// A clause with one literal that isn't false.
    Clause {
        k: u32,
        clause: u32,
    },
    /// A conditional row, by its half.
    When {
        k: u32,
        half: u32,
    },
    /// A Hall set of positions.
    Hall {
        k: u32,
        w: Short<u32>,
    },
    /// An element constraint.
    Elem {
        k: u32,
    },
    /// A sum of indexed entries.
    Isum {
        k: u32,
    },
    /// The time-table at a moment.
    Time {
        k: u32,
        moment: i128,
        task: Option<u32>,
    },
    /// The energy of a set of tasks.
    Energy {
        k: u32,
        w: Short<u32>,
    },
    /// The load of a set of tasks on one machine.
    Load {
        k: u32,
        w: Short<u32>,
    },
    /// A task comes after a set of tasks.
    After {
        k: u32,
        task: u32,
        w: Short<u32>,
        v: Short<u32>,
    },
    /// A task comes before a set of tasks.
    Before {
        k: u32,
        task: u32,
        w: Short<u32>,
        v: Short<u32>,
    },
    /// The capacity of a packing's group.
    Cap {
        k: u32,
        group: u32,
    },
    /// The cost of a packing.
    Pay {
        k: u32,
    },
    /// The chain of fixed successors of a circuit.
    Chain {
        k: u32,
        place: u32,
    },
}
