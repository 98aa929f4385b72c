//! The acts of a history as views are shown them.
#![tactic(auto)]

mod shown_act;

pub use shown_act::ShownAct;
