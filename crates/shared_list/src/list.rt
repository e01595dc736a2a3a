//! A list that several may hold at once.
ghost use Rattle.std.specs.Prelude.{◌≡◌, ◌≤◌, [], length, take, IfOk};

use std::alloc::Global;
use std::marker::Model;
use std::sync::Arc;
use stock_nums::lines::Lines;
use stock_nums::memory::NoMemory;

/// The first items of a list that several may hold at once, in any threads, and that none of them changes. The list goes with the
/// last who holds it. Contracts see the first items.
#[derive(Drop)]
pub struct SharedList<T: Drop> {
    /// None for no items, which take no memory.
    whole: Option<Arc<Lines<T>>>,
    len: usize,
}

impl<T: Drop> Model for SharedList<T> {
    ghost use Rattle.std.specs.Prelude.{◌≤◌, List, length, take};
    ghost use Rattle.shared_list.specs.Whole.{items_of};

    ghost Value = { List T };

    ghost view = { λ list. take list.len (items_of list.whole) };

    ghost invariant = { λ list. list.len ≤ length (items_of list.whole) };
}

impl<T: Drop> SharedList<T> {
    /// No items. It takes no memory.
    pub fn new() -> SharedList<T>
        ensures { result ≡ [] }
    {
        SharedList {
            whole: None,
            len: 0,
        }
    }

    /// These items, which nobody else holds yet. The only error is want of memory.
    pub fn of(alloc: Global, items: Lines<T>) -> Result<SharedList<T>, NoMemory>
        ensures { IfOk result (λ list. list ≡ items) }
    {
        let len = items.len();
        Ok(SharedList {
            whole: Some(Arc::new(alloc, items)?),
            len,
        })
    }

    /// The first items once more, of which none is copied.
    ///
    /// # Errors
    ///
    /// `NoMemory`: 2^63 hold the list already.
    pub fn front(&self, len: usize) -> Result<SharedList<T>, NoMemory>
        requires { len ≤ length self.now }
        ensures { IfOk result (λ list. list ≡ take len self.now) }
    {
        let whole = match &self.whole {
            Some(whole) => Some(Arc::try_clone(whole)?),
            None => None,
        };
        Ok(SharedList { whole, len })
    }

    /// The same list once more, of which nothing is copied.
    ///
    /// # Errors
    ///
    /// `NoMemory`: 2^63 hold the list already.
    pub fn share(&self) -> Result<SharedList<T>, NoMemory>
        ensures { IfOk result (λ same. same ≡ self.now) }
    {
        self.front(self.len)
    }

    /// The items in order.
    pub fn as_slice(&self) -> &[T]
        ensures { result.now ≡ self.now }
    {
        match &self.whole {
            Some(whole) => &whole.as_slice()[..self.len],
            None => &[],
        }
    }

    /// How many items there are.
    pub fn len(&self) -> usize
        ensures { result ≡ length self.now }
    {
        self.len
    }
}
