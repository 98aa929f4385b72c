//! Reading a JSON value by forms.
ghost use Rattle.std.specs.Prelude.{◌≡◌, map, codes, ◌^◌, min, option_map, ℕ, None, string_bytes};
ghost use Rattle.std.specs.List.{list_all};
ghost use Rattle.std.specs.BTreeMap.{keys};
ghost use Rattle.serde_json.specs.View.{view};
ghost use Rattle.set_read.specs.Forms as forms;
ghost use Rattle.set_read.specs.Document.{protocols, plugins, cluster_form};

use rt_task::{DraftCluster, Protocol};
use serde_json::{Map, Value};

/// The number of a member that is required, if it is a whole number below 2^64.
pub fn natural_at(v: &Value, key: &str) -> Option<u64>
    ensures { result ≡ forms.required forms.natural key.now (view v.now) }
{
    v.get(key).and_then(Value::as_u64)
}

/// The number of a member, or the default where the member is not there.
pub fn natural_or(v: &Value, default: u64, key: &str) -> Option<u64>
    ensures { result ≡ forms.optional forms.natural default key.now (view v.now) }
{
    match v.get(key) {
        None => Some(default),
        Some(x) => x.as_u64(),
    }
}

/// The truth value of a member, or the default where the member is not there.
pub fn truth_or(v: &Value, default: bool, key: &str) -> Option<bool>
    ensures { result ≡ forms.optional forms.truth default key.now (view v.now) }
{
    match v.get(key) {
        None => Some(default),
        Some(x) => x.as_bool(),
    }
}

/// The text of a member that is required.
pub fn text_at<'a>(v: &'a Value, key: &str) -> Option<&'a str>
    ensures { option_map (λ s. s.now) result ≡ forms.required forms.text key.now (view v.now) }
{
    v.get(key).and_then(Value::as_str)
}

/// The protocol of a word.
pub fn protocol_in(word: &str) -> Option<Protocol>
    ensures { result ≡ forms.word_in protocols word.now }
{
    match word {
        "FMLP" => Some(Protocol::Fmlp),
        "OMLP" => Some(Protocol::Omlp),
        "PCP" => Some(Protocol::Pcp),
        "MPCP" => Some(Protocol::Mpcp),
        "SRP" => Some(Protocol::Srp),
        _ => None,
    }
}

pub fn is_among(words: &[&str], word: &str) -> bool
    ensures { result ≡ forms.is_among (map (λ w. w.now) words.now) word.now }
{
    for w in words {
        if word == *w {
            return true;
        }
    }
    false
}

fn keys_among(members: &Map<String, Value>, words: &[&str]) -> bool
    ensures { result
        ≡ list_all (λ k. forms.is_among (map
        (λ w. w.now) words.now) (string_bytes k)) (keys members.now) }
{
    members.keys().all(|k| is_among(words, k.as_str()))
}

/// Whether the value is an object whose members are all among the words.
pub fn has_only(v: &Value, words: &[&str]) -> bool
    ensures { forms.when result ≡ forms.object_of (map (λ w. w.now) words.now) (view v.now) }
{
    match v.as_object() {
        None => false,
        Some(members) => keys_among(members, words),
    }
}

/// A cluster, if the value has its form.
#[tactic(auto, unfolding(crate::specs::Document::cluster_form))]
pub fn cluster_of(v: &Value) -> Option<DraftCluster>
    ensures { result ≡ cluster_form (view v.now) }
{
    if !has_only(v, &["cpus", "group"]) {
        return None;
    }
    let cpus = natural_at(v, "cpus")?;
    let group = natural_or(v, 0, "group")?;
    Some(DraftCluster { cpus, group })
}
