//! The text of a trace: the set, for each group its links at opening and a line for each entry, and what tools count of the
//! entries. It is defined here, with its laws; `trace_writer` writes it, and `trace_check` compares it.
#![tactic(auto)]

mod cpus;
mod head;
mod links;
mod played_group;
mod requests;
mod shown;

pub use cpus::{count_groups, cpus_of};
pub use head::head_of;
pub use links::{is_same_task, put_changed};
pub use played_group::PlayedGroup;
pub use requests::put_request_line;
pub use shown::shown_by;
