//! The plugins of LITMUS-RT (Brandenburg, dissertation, University of North Carolina, 2011): GSN-EDF, its global EDF, and C-EDF,
//! its clustered EDF, by deadline in clusters of any number of processors; and those whose clusters have one processor each,
//! PSN-EDF, by deadline, P-FP, by fixed priorities, and P-RES, by the priorities of reservations.
#![tactic(auto)]

ghost use Rattle.rt_plays.specs.PluginKeys.{AreBaseKeys, AreBoosts};

mod c_edf;
mod global;
mod gsn_edf;
mod p_fp;
mod p_res;
mod partitioned;
mod psn_edf;

pub use c_edf::CEdf;
pub use global::{BASE_BAND, ceiling_key, deadline_key, global_boost};
pub use gsn_edf::GsnEdf;
pub use p_fp::PFp;
pub use p_res::PRes;
pub use partitioned::{grant_key, priority_key, reservation_key};
pub use psn_edf::PsnEdf;
use rt_rules::Plugin;
use rt_task::PluginKind;

/// The base keys of GSN-EDF are those of the model.
pub fn gsn_edf_has_base_keys()
    ensures { AreBaseKeys PluginKind.GsnEdf ⟦<GsnEdf as Plugin>⟧.base }
{}

/// The boosts of GSN-EDF are those of the model.
pub fn gsn_edf_has_boosts()
    ensures { AreBoosts PluginKind.GsnEdf ⟦<GsnEdf as Plugin>⟧.boost }
{}

/// The base keys of C-EDF are those of the model.
pub fn c_edf_has_base_keys()
    ensures { AreBaseKeys PluginKind.CEdf ⟦<CEdf as Plugin>⟧.base }
{}

/// The boosts of C-EDF are those of the model.
pub fn c_edf_has_boosts()
    ensures { AreBoosts PluginKind.CEdf ⟦<CEdf as Plugin>⟧.boost }
{}

/// The base keys of PSN-EDF are those of the model.
pub fn psn_edf_has_base_keys()
    ensures { AreBaseKeys PluginKind.PsnEdf ⟦<PsnEdf as Plugin>⟧.base }
{}

/// The boosts of PSN-EDF are those of the model.
pub fn psn_edf_has_boosts()
    ensures { AreBoosts PluginKind.PsnEdf ⟦<PsnEdf as Plugin>⟧.boost }
{}

/// The base keys of P-FP are those of the model.
pub fn p_fp_has_base_keys()
    ensures { AreBaseKeys PluginKind.PFp ⟦<PFp as Plugin>⟧.base }
{}

/// The boosts of P-FP are those of the model.
pub fn p_fp_has_boosts()
    ensures { AreBoosts PluginKind.PFp ⟦<PFp as Plugin>⟧.boost }
{}

/// The base keys of P-RES are those of the model.
pub fn p_res_has_base_keys()
    ensures { AreBaseKeys PluginKind.PRes ⟦<PRes as Plugin>⟧.base }
{}

/// The boosts of P-RES are those of the model, which boosts nobody under its plugins without semaphores.
pub fn p_res_has_boosts()
    ensures { AreBoosts PluginKind.PRes ⟦<PRes as Plugin>⟧.boost }
{}
