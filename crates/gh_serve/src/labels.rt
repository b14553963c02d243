//! The labels of landmarks that a script asks for.
ghost use Rattle.std.specs.Prelude.{◌≤◌, ◌<◌, ◌+◌, ◌≡◌, ◌↔◌, IsTrue, IfSome, IfNone};
ghost use Rattle.gh_serve.specs.Labels.{labels_of, labels_in, labels_asked};

use map_roads::MOST_LABELS;
use script_text::{Command, Line, Script};

/// The labels that a command asks for, where there are so many towers and edges together.
#[tactic(auto, using(crate::proofs::Sums::product_fits))]
fn labels_of(size: u32, command: &Command) -> u64
    ensures labels { result ≡ labels_of size command.now }
    ensures small { result ≤ 18446744065119617025 }
{
    match command {
        Command::Prepare { count, .. } => u64::from(*count) * u64::from(size),
        _ => 0,
    }
}

/// The labels that lines ask for on top of those before, or None where they are too many.
fn add_labels(size: u32, lines: &[Line], before: u64) -> Option<u64>
    requires { before ≤ 150000000 }
    ensures some { IfSome result (λ labels. labels ≡ before + labels_in size lines.now) }
    ensures few { IfSome result (λ labels. labels ≤ 150000000) }
    ensures many { IfNone result (150000000 < before + labels_in size lines.now) }
{
    let mut labels = before;
    'lines: for line in lines {
        labels += labels_of(size, &line.command);
        if labels > MOST_LABELS {
            return None;
        }
    }
    Some(labels)
}

/// The labels that a script asks for, or None where they are too many.
fn labels_asked(size: u32, script: &Script) -> Option<u64>
    ensures some { IfSome result (λ labels. labels ≡ labels_asked size script.now) }
    ensures few { IfSome result (λ labels. labels ≤ 150000000) }
    ensures many { IfNone result (150000000 < labels_asked size script.now) }
{
    let mut labels = 0;
    'phases: for phase in script.phases.as_slice() {
        let Some(more) = add_labels(size, phase.as_slice(), labels) else {
            return None;
        };
        labels = more;
    }
    Some(labels)
}

/// Whether a script asks for no more labels than it may.
pub(crate) fn are_few(size: u32, script: &Script) -> bool
    ensures { IsTrue result ↔ (labels_asked size script.now ≤ 150000000) }
{
    labels_asked(size, script).is_some()
}
