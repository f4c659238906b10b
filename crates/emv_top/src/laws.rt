//! The laws that the purchases of a run come to a decision, and that its lines are entries of traces.
ghost use Rattle.emv_top.specs.Decided.{RunsAreDecided};
ghost use Rattle.emv_top.specs.Traces.{LinesAreEntries};

use dialogue_laws::{hosts_are_linked, purchases_are_decided};

/// In every run each ended purchase without a tear of its card or its terminal began with a completed power-up of its card, and where the card was
/// well-formed with the decisions found then, it is approved or declined, whatever its link to the host.
pub fn runs_are_decided()
    ensures { RunsAreDecided }
{
    purchases_are_decided();
    hosts_are_linked();
}

/// A line of a report that tells what was said in a purchase is the text of a trace's entry behind the lane, and the line
/// of its end is the text that a trace's verdict compares, behind the purchase's number.
pub fn lines_are_entries()
    ensures { LinesAreEntries }
{}
