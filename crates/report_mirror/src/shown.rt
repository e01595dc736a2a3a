//! The generation that a mirror shows, of which it keeps two copies, and what a reader has seen of it.
use crate::generation::Generation;
use crossbeam_utils::rule::{Outcome, Protocol};
use left_right::Absorb;
use std::alloc::AllocError;
use std::collections::LinkedList;
use std::marker::Model;
use std::sync::Arc;
use stock_model::records::Record;

/// A generation that is shown.
#[derive(Drop)]
pub struct Shown {
    pub(crate) generation: Arc<Generation>,
}

impl Model for Shown {
    ghost use Rattle.std.specs.Prelude.{List};
    ghost use Rattle.std.specs.Arc.{arc_value};
    ghost use Rattle.stock_model.specs.declared.records.Record.{Record};

    ghost Value = { List Record };

    ghost view = { λ shown. arc_value shown.generation };
}

impl Absorb<Arc<Generation>> for Shown {
    ghost use Rattle.std.specs.Arc.{arc_value};

    type State = Generation;

    ghost state = { λ shown. shown };

    ghost applied = { λ before next. arc_value next };

    fn absorb_first(&mut self, next: &Arc<Generation>, _other: &Shown) -> Result<(), AllocError> {
        self.generation = Arc::try_clone(next)?;
        Ok(())
    }

    fn absorb_second(
        &mut self,
        next: Arc<Generation>,
        _other: &Shown,
    ) -> Result<(), Arc<Generation>> {
        self.generation = next;
        Ok(())
    }
}

/// What a reader has seen: the records of a generation. No value of it is made.
pub struct Seen {
    pub records: LinkedList<Record>,
}

/// The rule of a mirror: what is shown begins with what each reader has seen.
pub struct Grows;

impl Protocol<Shown, Seen> for Grows {
    ghost use Rattle.std.specs.Prelude.{[]};
    ghost use Rattle.report_mirror.specs.Mirrored.{AllBeginnings};

    ghost holds = { AllBeginnings };

    ghost first = { record { records = [] } };
}

/// What who reads or shows is told.
pub(crate) struct Sees;

impl Outcome<Shown, Seen> for Sees {
    ghost use Rattle.report_mirror.specs.Mirrored.{Sees};

    ghost then = { Sees };
}
