//! The text that explains an entry of a trace: the entry, what it was answered and why, and what was so before the act and after it.
//! Definitions over the pasts of groups.
#![tactic(auto)]
