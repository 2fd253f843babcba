//! Rows and columns by name.
use crate::short::Short;
use sm_frac::Frac;

/// A column of a row.
#[derive(Clone, Copy)]
pub enum Col {
    /// The value of a variable.
    Var(u32),
    /// 1 where the variable has the value, else 0.
    Is(u32, i64),
}

/// The name of a row.
#[derive(Drop)]
pub enum RowRef {
    Lin { k: u32 },
    Link { var: u32 },
    Mean { var: u32 },
    Clause { k: u32, clause: u32 },
    When { k: u32, half: u32 },
    Value { k: u32, value: i128 },
    Table { k: u32 },
    Time { k: u32, moment: i128 },
    Par { k: u32, tasks: Short<u32> },
    Cap { k: u32, group: u32 },
    Pack { k: u32 },
    Once { k: u32, node: u32 },
    SelfLoop { k: u32, place: u32 },
    Cut { cut: u64 },
    Goal { level: u32 },
    Named { name: u64 },
}

/// A row with its multiplier.
#[derive(Drop)]
pub struct Term {
    pub by: Frac,
    pub row: RowRef,
}
