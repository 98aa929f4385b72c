//! What a set that is refused breaks: the member, and its rule in words.
#![tactic(auto)]

ghost use Rattle.set_explain.specs.Laws.{RefusalsHaveRules};

mod cause;
mod draft_rule;
mod form_rule;
mod has;
mod name;
mod range;
mod rule;
mod shape;
mod sharing;
mod size;
mod tables;
mod task_shape;
mod text;
mod users;
mod words;

pub use cause::{Cause, cause_of};
pub use rule::Rule;
pub use text::explanation;

/// A rule is named for each refusal of a set but that of bytes that are no JSON value.
pub fn refusals_have_rules()
    ensures { RefusalsHaveRules }
{}
