//! One core: what it does with its inputs, as a machine over its course, and the functions that make its steps. Which entry
//! begins next, what the entry under way wants, and when the core stops; its steps keep its book lawful.
//! What is kept stands for a course: a desk (conversations, what falls due, events without an answer, the book) and how far the
//! entry under way is. A function that finds no memory gives back what was in hand.
//! Stands on convo (one conversation), deadlines, indexmap and the definitions of streamdefs.
#![tactic(auto)]

mod active;
mod advancing;
mod answering;
mod beginning;
mod beginning_packet;
mod beginning_planned;
mod choosing;
mod completing;
mod deciding;
mod desk;
mod draining;
mod ending;
mod entry_kind;
mod falling_due;
mod finishing;
mod hand;
mod held;
mod job;
pub mod laws;
mod loading;
mod memory;
mod opening;
mod owed;
mod pause;
mod planning;
mod resting;
mod returning;
pub mod rows;
mod settling;
mod slot;
mod stage;
mod state;
mod summing;
mod table;
mod table_answers;
mod table_book;
mod table_turns;
mod turn;
mod turning;
mod unanswered;

pub use active::Active;
pub use advancing::advance;
pub use choosing::Verdict;
pub use desk::Desk;
pub use entry_kind::EntryKind;
pub use hand::Hand;
pub use held::Held;
pub use job::Job;
pub use loading::{give_back, grant, load, load_end, refuse};
pub use memory::Memory;
pub use owed::Owed;
pub use pause::Pause;
pub use returning::begin_back;
pub use slot::Slot;
pub use stage::Stage;
pub use state::State;
pub use table::CoreTable;
pub use table_book::CoreBook;
pub use turn::Turn;
pub use unanswered::Unanswered;
