//! What stands in the unused places of a short list. Nothing reads it, so any value will do.
use crate::line::{Listed, Pattern};
use crate::row::{Col, RowRef, Term};
use crate::short::Short;
use sm_frac::Frac;
use std::alloc::Global;
use std::default::MadeWith;

impl MadeWith<Global> for Col {
    fn made_with(_alloc: Global) -> Col {
        Col::Var(0)
    }
}

impl MadeWith<Global> for Term {
    fn made_with(_alloc: Global) -> Term {
        Term {
            by: Frac::whole(0),
            row: RowRef::Lin { k: 0 },
        }
    }
}

impl MadeWith<Global> for Listed {
    fn made_with(alloc: Global) -> Listed {
        Listed {
            group: 0,
            items: Short::new(alloc),
        }
    }
}

impl MadeWith<Global> for Pattern {
    fn made_with(alloc: Global) -> Pattern {
        Pattern {
            group: 0,
            items: Short::new(alloc),
            weight: 0,
        }
    }
}
