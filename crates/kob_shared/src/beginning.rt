//! Where a journal begins, for contracts alone.

ghost use Rattle.std.specs.Prelude.{◌≡◌};
ghost use Rattle.std.specs.Borrow.{ftrue};
ghost use Rattle.std.specs.Coded.{codes};
ghost use Rattle.kob_broker.specs.Step.{state_of};
ghost use Rattle.kob_partition.specs.Retained.{retained_code};
ghost use Rattle.kob_shared.specs.Journals.{Retained, State};

use kob_broker::Broker;
use std::marker::Model;

/// The state of a broker when its journal began. It takes no memory: contracts alone read its state.
#[derive(Drop)]
pub(crate) struct Beginning {
    pub ghost state: { State Retained } by { Prim.hlevel (codes, retained_code) },
}

impl Model for Beginning {
    ghost also_owns = { λ _. ftrue };
}

impl Beginning {
    /// A journal that begins in this broker's state.
    pub(crate) fn of(_broker: &Broker) -> Beginning
        ensures { result.state ≡ state_of _broker.now }
    {
        Beginning {}
    }
}
