// Checks of a number that stands for a label or for a user, by any kind.
ghost use Rattle.std.specs.Prelude.{◌≡◌, MatchResult};
ghost use Rattle.labels.specs.Order.{Label, JoinPrime, Lawful};
ghost use Rattle.labels.specs.Fault.{UserRefused};
ghost use Rattle.labels.specs.declared.fault.KindFault.TheVariants.{NotALabel};

use crate::fault::KindFault;
use crate::kind::LabelKind;

// The number is a label of the kind.
pub fn check_label<K: LabelKind>(kind: &K, label: u32) -> Result<(), KindFault>
    ensures { MatchResult result (λ _. Label (K.meaning kind.now) label) (λ f. (Label (K.meaning kind.now) label → ⊥) × (f ≡ NotALabel)) }
{
    if kind.is_label(label) {
        Ok(())
    } else {
        Err(KindFault::NotALabel)
    }
}

// The number is a label that is admitted as a user.
pub fn check_user<K: LabelKind>(kind: &K, user: u32) -> Result<(), KindFault>
    ensures { MatchResult result (λ _. JoinPrime (K.meaning kind.now) user) (UserRefused (K.meaning kind.now) user) }
{
    check_label(kind, user)?;
    if kind.admits(user) {
        Ok(())
    } else {
        Err(KindFault::NotAdmitted)
    }
}
