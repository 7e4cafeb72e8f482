//! One clock for many threads: a word that is read by adding one to it, so that each reading is given once.
#![tactic(auto)]

mod bounds;
mod clock_fault;
mod clock_steps;
mod clock_table;
mod floor_clock;
mod joining;
mod known;
mod message;
mod tick_clock;
mod tick_seat;
mod told;
mod view;

pub use bounds::Bounds;
pub use clock_fault::ClockFault;
pub use floor_clock::FloorClock;
pub use joining::join_all;
pub use known::Known;
pub use message::{Clocked, Message};
pub use tick_clock::TickClock;
pub use tick_seat::TickSeat;
pub use told::Told;
pub use view::View;
