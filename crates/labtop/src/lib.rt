//! The commands that run in one thread, from the words and the files of a shelf to a status and the files.
//! Each answer has its cause as a clause of `lab_top`, and the files written are the defined texts of the capture.
//! Stands on scap_world (the files), pcapfile (the capture), pcapgen (one that is made), linkip and porthdr (the headers), capfilter (the filter), streamkey
//! (keys), datagrams (the replay), histbook (the journal), prio_budget (the marks), the definitions of streamdefs, evring, and textout.
#![tactic(auto)]

mod built;
mod capture;
mod counts;
mod drill;
mod files;
mod found;
mod intake;
mod lab_done;
pub mod laws;
mod limits;
pub mod make_rows;
mod make_run;
mod match_by;
pub mod match_laws;
pub mod match_rows;
mod match_run;
mod matched;
mod matching;
mod memory;
mod names;
mod outcome;
mod report;
pub mod rows;
mod settings_file;
mod summary;
mod top;
mod totals;
mod words;

pub use drill::drill_run;
pub use lab_done::LabDone;
pub use top::lab_top;
