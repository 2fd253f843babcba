//! The lists inside lines.
ghost use Rattle.std.specs.Prelude.{◌≡◌, [], ◌∷◌, ◌++◌, OnOk, OnErr, IfOk};

use smallvec::SmallVec;
use std::alloc::{AllocError, Global};
use std::default::MadeWith;
use std::marker::Model;

/// A list inside a line: up to two items stay in the line itself, more are in an allocation. Contracts see it as the
/// list of its items.
pub struct Short<T> {
    items: SmallVec<T, 2>,
}

/// Written by hand, so that a line that is dropped has one case for each of its lists, however long they are.
impl<T: Drop> Drop for Short<T> {
    fn drop(self) {
        let Short { items: _ } = self;
    }
}

impl<T> Model for Short<T> {
    ghost use Rattle.std.specs.Prelude.{List};
    ghost use Rattle.std.specs.Coded.{coded_list};

    ghost Value = { List T };

    ghost coded = { coded_list T.code };

    ghost view = { λ s. s.items.items };
}

impl<T> Short<T> {
    /// The items, in order.
    pub fn as_slice(&self) -> &[T]
        ensures { result.now ≡ self.now }
    {
        self.items.as_slice()
    }
}

impl<T: MadeWith<Global> + Drop> Short<T> {
    /// The empty list.
    pub fn new(alloc: Global) -> Short<T>
        ensures { result ≡ [] }
    {
        Short {
            items: SmallVec::new(alloc),
        }
    }

    /// Appends an item.
    pub fn push(&mut self, item: T) -> Result<(), AllocError>
        ensures ok { OnOk result (self.new ≡ self.old ++ item ∷ []) }
        ensures err { OnErr result (self.new ≡ self.old) }
    {
        self.items.push(item)?;
        Ok(())
    }

    /// Puts an item before the others.
    pub fn push_front(&mut self, item: T) -> Result<(), AllocError>
        ensures ok { OnOk result (self.new ≡ item ∷ self.old) }
        ensures err { OnErr result (self.new ≡ self.old) }
    {
        self.items.insert(0, item)?;
        Ok(())
    }
}

impl<T: MadeWith<Global> + Copy> Short<T> {
    /// A list of the items of a slice.
    pub fn from_slice(alloc: Global, items: &[T]) -> Result<Short<T>, AllocError>
        ensures { IfOk result (λ s. s ≡ items.now) }
    {
        let items = SmallVec::from_slice(alloc, items)?;
        Ok(Short { items })
    }

    /// Adds items at the end.
    pub fn extend_from_slice(&mut self, more: &[T]) -> Result<(), AllocError>
        ensures ok { OnOk result (self.new ≡ self.old ++ more.now) }
        ensures err { OnErr result (self.new ≡ self.old) }
    {
        self.items.extend_from_slice(more)?;
        Ok(())
    }
}
