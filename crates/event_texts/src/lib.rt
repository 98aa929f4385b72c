//! Trace events, for ui.perfetto.dev and chrome://tracing: definitions over the pasts of groups.
#![tactic(auto)]
