//! What each step tells. These types are for contracts alone.
use crate::logged::Logged;
use crate::view::View;
use atomic_table::{Join, Play, Split};

pub(crate) struct Look;

impl<B: Logged> Play<Option<B>, View<B::Event>> for Look {
    ghost use Rattle.turn_lock.specs.Steps.{looked};

    ghost then = { looked B.history B.faults B.follows };
}

pub(crate) struct Draw;

impl<B: Logged> Play<Option<B>, View<B::Event>> for Draw {
    ghost use Rattle.turn_lock.specs.Steps.{drew};

    ghost then = { drew B.history B.faults B.follows };
}

pub(crate) struct Come;

impl<B: Logged> Play<Option<B>, View<B::Event>> for Come {
    ghost use Rattle.turn_lock.specs.Steps.{came};

    ghost then = { came B.history B.faults B.follows };
}

pub(crate) struct Raise;

impl<B: Logged> Play<Option<B>, View<B::Event>> for Raise {
    ghost use Rattle.turn_lock.specs.Steps.{raised};

    ghost then = { raised B.history B.faults B.follows };
}

pub(crate) struct Ring;

impl<B: Logged> Play<Option<B>, View<B::Event>> for Ring {
    ghost use Rattle.turn_lock.specs.Steps.{rang};

    ghost then = { rang B.history B.faults B.follows };
}

pub(crate) struct Check;

impl<B: Logged> Play<Option<B>, View<B::Event>> for Check {
    ghost use Rattle.turn_lock.specs.Steps.{checked};

    ghost then = { checked B.history B.faults B.follows };
}

pub(crate) struct Cut;

impl<E> Split<View<E>> for Cut {
    ghost use Rattle.turn_lock.specs.Views.{split_left, split_right};

    ghost left = { split_left };

    ghost right = { split_right };
}

pub(crate) struct Merge;

impl<E> Join<View<E>> for Merge {
    ghost use Rattle.turn_lock.specs.Views.{joined_view, spent};

    ghost both = { joined_view };

    ghost spent = { spent };
}
