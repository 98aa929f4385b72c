//! The forms that a set's document is made of, one by one, for whoever says which of them a refused document has not.
pub use crate::acts::{NameLists, step_of};
pub use crate::document::{Play, Whole, items_at, items_or_none, play_of, plugin_in, whole_of};
pub use crate::forms::{
    cluster_of, has_only, natural_at, natural_or, protocol_in, text_at, truth_or,
};
pub use crate::read::names_of;
pub use crate::tasks::{
    body_of, kind_of, reservation_of, resv_kind_in, resv_of, semaphore_of, slots_of, task_of,
    uses_of,
};
