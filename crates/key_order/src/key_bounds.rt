//! Bounds among changes by item and warehouse, and then in posting order.
ghost use Rattle.std.specs.Prelude.{◌≡◌};
ghost use Rattle.stock_model.specs.Enough.{is_same_key};
ghost use Rattle.stock_model.specs.Sheets.{is_key_before};

use crate::change::Change;
use block_list::bound::Bound;
use stock_nums::entry::Key;
use stock_nums::place::Place;

/// The first place of an item in a warehouse: the changes of keys before it come before.
#[derive(Clone, Copy)]
pub(crate) struct BeforeKey {
    pub(crate) key: Key,
}

/// The last place of an item in a warehouse: its changes and those of keys before it come before.
#[derive(Clone, Copy)]
pub(crate) struct UpToKey {
    pub(crate) key: Key,
}

/// A place of an item in a warehouse: what stands there does not come before.
#[derive(Clone, Copy)]
pub(crate) struct Before {
    pub(crate) key: Key,
    pub(crate) place: Place,
}

/// A place of an item in a warehouse: what stands there comes before.
#[derive(Clone, Copy)]
pub(crate) struct UpTo {
    pub(crate) key: Key,
    pub(crate) place: Place,
}

impl Bound<Change> for BeforeKey {
    ghost use Rattle.key_order.specs.KeyBounds.{is_before_key};

    ghost above = { λ bound change. is_before_key bound.key change };

    fn is_above(&self, item: &Change) -> bool {
        is_key_before(&item.key, &self.key)
    }
}

impl Bound<Change> for UpToKey {
    ghost use Rattle.key_order.specs.KeyBounds.{is_up_to_key};

    ghost above = { λ bound change. is_up_to_key bound.key change };

    fn is_above(&self, item: &Change) -> bool {
        is_key_before(&item.key, &self.key) || is_same_key(&item.key, &self.key)
    }
}

impl Bound<Change> for Before {
    ghost use Rattle.key_order.specs.KeyBounds.{is_before_place};

    ghost above = { λ bound change. is_before_place bound.key bound.place change };

    fn is_above(&self, item: &Change) -> bool {
        is_key_before(&item.key, &self.key)
            || (is_same_key(&item.key, &self.key) && item.place.is_before(&self.place))
    }
}

impl Bound<Change> for UpTo {
    ghost use Rattle.key_order.specs.KeyBounds.{is_up_to_place};

    ghost above = { λ bound change. is_up_to_place bound.key bound.place change };

    fn is_above(&self, item: &Change) -> bool {
        is_key_before(&item.key, &self.key)
            || (is_same_key(&item.key, &self.key) && !self.place.is_before(&item.place))
    }
}

// Whether the first key comes before the second.
fn is_key_before(a: &Key, b: &Key) -> bool
    ensures { result ≡ is_key_before a.now b.now }
{
    a < b
}

/// Whether the two keys are of one item and one warehouse.
pub(crate) fn is_same_key(a: &Key, b: &Key) -> bool
    ensures { result ≡ is_same_key a.now b.now }
{
    a.item == b.item && a.store == b.store
}
