//! Laws of set documents and their canonical texts: functions that do nothing, whose contracts are the laws.
#![tactic(auto)]

ghost use Rattle.std.specs.Prelude.{◌≡◌, ◌↔◌, Ok};
ghost use Rattle.rt_task.specs.declared.Parts.{Parts};
ghost use Rattle.set_canonical.specs.Canonical.{canonical};
ghost use Rattle.set_read.specs.Sets.{set};

use rt_task::Setup;

/// The canonical text of a setup is a document of that setup.
pub fn canonical_is_read(setup: &Setup)
    ensures { set (canonical setup.now) ≡ Ok setup.now }
{
    let _parts = setup.parts();
}

/// The canonical text of what a canonical text says is that text again.
pub fn canonical_is_kept(setup: &Setup)
    ensures { (p : Parts) → set (canonical setup.now) ≡ Ok p → canonical p ≡ canonical setup.now }
{
    let _parts = setup.parts();
}

/// The canonical text of what a document says is a document of the same setup.
pub fn document_has_canonical(document: &[u8])
    ensures { (p : Parts) → set document.now ≡ Ok p → set (canonical p) ≡ Ok p }
{}

/// Two documents are of one setup exactly where their setups have one canonical text.
pub fn canonical_tells_apart(first: &[u8], second: &[u8])
    ensures { (p q : Parts) → set first.now ≡ Ok p → set second.now ≡ Ok q
        → (canonical p ≡ canonical q) ↔ (p ≡ q) }
{}
