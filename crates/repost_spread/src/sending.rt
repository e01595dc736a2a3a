//! That movements under revaluation may cross from one thread to another.

use crate::movements::Movements;

fn sent<T: Send>() {}

fn movements_may_cross_threads() {
    sent::<Movements>();
}
