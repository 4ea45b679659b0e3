//! What a command is told and what it answers: the settings of a run, and the status with which a command ends.
//! Each status has its number and its text, and the settings that nothing is said of have stated values.
//! Stands on convo, cutclass, overpolicy and prio_budget (what is set for conversations), capfilter (the filter of packets),
//! pcapfile (why a file is no capture) and textout (texts and numbers).
#![tactic(auto)]

mod key;
pub mod laws;
mod limits;
mod line;
mod line_error;
mod memory;
mod name;
mod number;
mod parse;
mod place;
mod read;
mod reader;
pub mod rows;
mod setting;
mod settings;
mod settings_error;
mod size;
mod status;
mod status_text;
mod time;
mod value;
mod word;

pub use limits::{LONGEST_TEXT, MOST_RULES};
pub use memory::Memory;
pub use settings::Settings;
pub use settings_error::{SettingsError, SettingsKind};
pub use status::Status;
