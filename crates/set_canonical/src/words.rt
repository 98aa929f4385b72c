//! The words of a set document.
ghost use Rattle.std.specs.Prelude.{◌≡◌};
ghost use Rattle.set_canonical.specs.Words as spec;

use rt_task::{Kind, PluginKind, Protocol, ResvKind};

/// The name of a scheduler.
pub fn plugin_word(plugin: PluginKind) -> &'static [u8]
    ensures { result.now ≡ spec.plugin_word plugin }
{
    match plugin {
        PluginKind::GsnEdf => b"GSN-EDF",
        PluginKind::CEdf => b"C-EDF",
        PluginKind::PsnEdf => b"PSN-EDF",
        PluginKind::PFp => b"P-FP",
        PluginKind::PRes => b"P-RES",
    }
}

/// The name of a protocol.
pub fn protocol_word(protocol: Protocol) -> &'static [u8]
    ensures { result.now ≡ spec.protocol_word protocol }
{
    match protocol {
        Protocol::Fmlp => b"FMLP",
        Protocol::Omlp => b"OMLP",
        Protocol::Pcp => b"PCP",
        Protocol::Mpcp => b"MPCP",
        Protocol::Srp => b"SRP",
    }
}

pub fn resv_kind_word(kind: ResvKind) -> &'static [u8]
    ensures { result.now ≡ spec.resv_kind_word kind }
{
    match kind {
        ResvKind::Polling => b"polling",
        ResvKind::Sporadic => b"sporadic",
        ResvKind::Table => b"table",
    }
}

pub fn kind_word(kind: Kind) -> &'static [u8]
    ensures { result.now ≡ spec.kind_word kind }
{
    match kind {
        Kind::Periodic => b"periodic",
        Kind::Sporadic => b"sporadic",
    }
}
