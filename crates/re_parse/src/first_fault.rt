//! The first fault of a pattern, as one after another is found.

ghost use Rattle.std.specs.Prelude.{◌≡◌};
ghost use Rattle.re_tree.specs.Faults as spec;
ghost use Rattle.re_tree.specs.Faults.{only_if};
ghost use Rattle.re_parse.specs.FirstPass.{note};

use re_tree::{Fault, FaultKind};

fn rank(kind: FaultKind) -> u8
    ensures { result ≡ spec.rank kind }
{
    match kind {
        FaultKind::TooDeep => 0,
        FaultKind::TooManyGroups => 1,
        FaultKind::BadName => 2,
        FaultKind::BadCount => 3,
        FaultKind::BadReference => 4,
        FaultKind::NotFixedWidth => 5,
    }
}

// A place that is less comes first, and at one place the kind.
fn is_before(a: Fault, b: Fault) -> bool
    ensures { result ≡ spec.is_before a b }
{
    a.at < b.at || (a.at == b.at && rank(a.kind) < rank(b.kind))
}

// The first fault, with one that may be there.
#[tactic(auto, using(crate::proofs::FirstFaultLemmas::nothing_noted))]
pub(crate) fn note(first: Option<Fault>, wrong: bool, at: usize, kind: FaultKind) -> Option<Fault>
    ensures { result ≡ note first (only_if wrong at kind) }
{
    if !wrong {
        return first;
    }
    let fault = Fault { at, kind };
    match first {
        None => Some(fault),
        Some(a) => {
            if is_before(fault, a) {
                Some(fault)
            } else {
                Some(a)
            }
        }
    }
}
