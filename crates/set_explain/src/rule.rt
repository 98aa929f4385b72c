//! A rule that a set breaks.
ghost use Rattle.std.specs.Prelude.{◌≡◌, map};
ghost use Rattle.set_explain.specs.Rules as rules;
ghost use Rattle.set_explain.specs.Shown.{rule_shown, shown};

/// What has to be so of a member of a set's document, in words.
#[derive(Clone, Copy, PartialEq, Eq)]
pub struct Rule {
    pub member: &'static str,
    pub says: &'static str,
}

/// The rule, unless what it says is so.
pub(crate) fn unless(holds: bool, member: &'static str, says: &'static str) -> Option<Rule>
    ensures { shown result
        ≡ rules.unless holds (record { member = member.now; says = says.now }) }
{
    if holds {
        None
    } else {
        Some(Rule { member, says })
    }
}

/// The first that there is.
pub(crate) fn first(broken: &[Option<Rule>]) -> Option<Rule>
    ensures { shown result ≡ rules.first_some (map shown broken.now) }
{
    for rule in broken {
        if rule.is_some() {
            return *rule;
        }
    }
    None
}
