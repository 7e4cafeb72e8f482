//! What one seat tells another, as a message that keeps of which clock it is.

ghost use Rattle.std.specs.Prelude.{◌≡◌, []};
ghost use Rattle.atomic_table.specs.Seated.{TableId};

use crate::Told;
use std::marker::{Brand, PhantomData};

/// Which clock the messages of a channel are of. A caller picks it for a function over such messages.
pub trait Clocked {
    ghost clock: { TableId };
}

impl Clocked for Brand {
    ghost clock = { record { words = 0; slots = 0; views_name = 0; atom = 0; block = 0; offset = 0; slot_names = [] } };
}

/// A `Told` of the clock that `J` names. What a channel hands on is known by its type alone, so the type keeps which clock it is.
#[derive(Drop)]
pub struct Message<J: Clocked> {
    told: Told,
    of: PhantomData<J>,
    ghost same: { told.seat.table_id ≡ J.clock },
}

impl<J: Clocked> Message<J> {
    ghost use Rattle.trace_clock.specs.Seats.{told_clock};

    /// Of a `Told` of the clock that `J` names.
    pub fn new(told: Told) -> Message<J>
        requires { told_clock told ≡ J.clock }
        ensures { result.told ≡ told }
    {
        Message {
            told,
            of: PhantomData,
        }
    }

    pub fn into_told(self) -> Told
        ensures told { result ≡ self.told }
        ensures clock { told_clock result ≡ J.clock }
    {
        self.told
    }
}
