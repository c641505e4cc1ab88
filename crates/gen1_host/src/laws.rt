//! What no message and no reply of a host reveals (docs/MECHANICS.md, "Hosts"), as functions that do nothing.
ghost use Rattle.gen1_host.specs.Secrecy.{KeepsSecrets, KeepsSecretsFromAll};

/// Take two tables of which a side sees the same, and rows at both that it can't tell apart. If it is sent the same whenever a pair
/// ends, then all that it receives is the same: its messages, the replies to its rows, and its own choice.
#[tactic(auto, using(crate::proofs::Secrecy::keeps_secrets))]
pub fn keeps_secrets()
    ensures { KeepsSecrets }
{}

/// The same for the audience, from which all choices of both sides are hidden.
#[tactic(auto, using(crate::proofs::Audience::keeps_secrets_from_all))]
pub fn keeps_secrets_from_all()
    ensures { KeepsSecretsFromAll }
{}
