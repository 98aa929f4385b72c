//! The tests that the rules of a set are made of, one by one, for whoever says which of them a refused set fails.
pub use crate::rules::{
    act_in_range, act_is_in_group, act_is_known, allows_clusters, are_without_repeat, body_fits,
    ends_of, has_horizon, horizon_fits, horizon_in_range, is_known, is_name, is_of_one_cluster,
    is_p_res, is_partitioned, is_prio, is_span, is_well_formed, may_have, pieces_are_known,
    pieces_in_range, resv_fits, resv_is_known, slots_in_range, stands_under, uses_are_known,
};
