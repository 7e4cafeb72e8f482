//! A source whose end may be declined.

ghost use Rattle.std.specs.Prelude.{◌≡◌, false};
ghost use Rattle.trace_platform.specs.ScriptedSources.{SourceTakes, SourceRegains, SourceSettles, rest_of};
ghost use Rattle.trace_platform.specs.ScriptedSourceLaws as law;

use crate::{ListBackEnd, PacketSource};
use packet_writer::{Packet, PacketBuf};

/// The packets of a back end of lists, as a source that runs apart from it: what is to come is known only once its end was given. The end that is
/// handed in says whether it is.
#[derive(Drop)]
pub struct ScriptedSource {
    pub back_end: ListBackEnd,
    settled: bool,
}

impl ScriptedSource {
    pub fn new(back_end: ListBackEnd) -> ScriptedSource
        ensures { result ≡ record { back_end = back_end; settled = false } }
    {
        ScriptedSource {
            back_end,
            settled: false,
        }
    }
}

impl PacketSource for ScriptedSource {
    type Done = bool;

    ghost rest = { λ s. rest_of s.settled s.back_end.waiting };

    ghost given = { λ done. done };

    ghost own = { λ s done. Unit {0} };

    ghost takes = { SourceTakes };

    ghost regains = { SourceRegains };

    ghost settles = { SourceSettles };

    ghost takes_first = { law.takes_first };

    ghost takes_none = { law.takes_none };

    ghost takes_own = { λ a b done answer h own. tt };

    ghost regains_rest = { law.regains_rest };

    ghost regains_own = { λ a b done buffer h own. tt };

    ghost settles_given = { λ a b done answer h. h.0 };

    ghost settles_rest = { law.settles_rest };

    ghost settles_keeps = { law.settles_keeps };

    fn take(&mut self) -> Option<Packet> {
        self.back_end.take()
    }

    fn give_back(&mut self, buffer: PacketBuf) {
        self.back_end.give_back(buffer);
    }

    fn settle(&mut self, done: bool) -> bool {
        if done {
            self.settled = true;
        }
        done
    }
}
