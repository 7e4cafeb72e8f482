//! Platforms of lists, and such as refuse by a script: their calls with ample memory.

use crate::tests::expected::same;
use std::test::Fail;
use trace_platform::{
    BackEnd, Clock, ClockSpent, ListBackEnd, ListClock, PacketSource, Script, ScriptedBackEnd,
    ScriptedClock, Turn,
};

#[test]
fn a_back_end_lends_its_buffer(rt: HostRuntime) -> Result<(), Fail> {
    let mut back_end = ListBackEnd::new(rt.alloc(), 1, 16)?;
    let buffer = back_end.take_buffer().ok_or("no buffer")?;
    let lent = (buffer.len(), back_end.packet_bytes(), back_end.is_full());
    same(&rt, lent, (16, 16, true), "the buffer is lent");
    back_end.give_back(buffer);
    let back = (back_end.is_full(), back_end.full_count());
    same(&rt, back, (false, 1), "the buffer is back");
    let settled = (back_end.take().is_none(), back_end.settle(()));
    same(&rt, settled, (true, true), "no packet");
    Ok(())
}

/// A clock of the readings 3 and 9, and a back end that is full at the first look.
#[test]
fn scripted_platforms_refuse_at_their_turns(rt: HostRuntime) -> Result<(), Fail> {
    let alloc = rt.alloc();
    let readings = ListClock::new(vec![in alloc; 3, 9]?).ok_or("these never fall")?;
    let turns = vec![in alloc; Turn::Works, Turn::Fails]?;
    let mut clock = ScriptedClock::new(readings, Script::new(turns));
    let answers = [clock.read(), clock.read(), clock.read(), clock.read()];
    let want = [Ok(3), Err(ClockSpent), Ok(9), Err(ClockSpent)];
    same(&rt, answers, want, "four readings");
    same(&rt, clock.spent_count(), 2, "readings that were refused");
    let looking = Script::new(vec![in alloc; Turn::Fails]?);
    let handing = Script::new(Vec::new(alloc));
    let list = ListBackEnd::new(alloc, 1, 16)?;
    let mut back_end = ScriptedBackEnd::new(list, looking, handing);
    let looks = (back_end.is_full(), back_end.is_full());
    let answers = (looks, back_end.full_count());
    same(&rt, answers, ((true, false), 1), "two looks");
    Ok(())
}
