//! Laws over every run, whatever its scenario.
ghost use Rattle.txn_replay.specs.Asking.{RunsAsk, WholeRunsAsk};
ghost use Rattle.txn_replay.specs.Bounds.{WorldsAreFew, SettlementsAreFew, ChecksAreFew};
ghost use Rattle.txn_replay.specs.Captured.{CapturesAreSent, LostAreTold, WholeRunsTellLost};
ghost use Rattle.txn_replay.specs.Choices.{NoneIsOpen, RunIsOne};
ghost use Rattle.txn_replay.specs.Laws.{RunsAreFair, WholeRunsAreFair, WorldsAreSound, IdleLanesStay, LanesStayApart, LossesAreTold, StuckIsOver, CalmIsOver};
ghost use Rattle.txn_replay.specs.Named.{RunsNameCards, WholeRunsNameCards};
ghost use Rattle.txn_replay.specs.PagesTell.{PagesTellTotals};
ghost use Rattle.txn_replay.specs.Respelled.{DialectsShow, WholeDialectsShow};
ghost use Rattle.txn_replay.specs.Sessions.{RunsTellSessions};
ghost use Rattle.txn_replay.specs.StandAlone.{LanesStandAlone, CarriedAreOwn, FirstPartsAgree, StepsComeApart, AloneIsOwn, LaneRunIsOne};
ghost use Rattle.txn_replay.specs.Stored.{StoresAreKept, SettlementGoesThrough, StoresAreEmptied};
ghost use Rattle.txn_replay.specs.Telling.{GivenIsTold, GivenIsLeft, HeldIsSure, AnsweredIsSure};
ghost use Rattle.txn_replay.specs.ToldByLines.{RunsTellLosses, WholeRunsTellLosses, RunsTellReplies, RunsTellMessages, PastsEnd};

use host_histories::{accounts_stand_apart, transactions_are_booked_once};

/// Wherever a scenario's tears cut the power: no transaction counter of an application serves the
/// cryptograms of two purchases. Each completed power-up finds a prefix of the decisions taken, which
/// leaves out at most the last one and none behind which an answer was made. And of the messages that came
/// to the issuer's host at most one books a transaction, a presentment of it.
pub fn runs_are_fair()
    ensures reached { RunsAreFair }
    ensures whole { WholeRunsAreFair }
{
    transactions_are_booked_once();
}

/// A lane runs only a purchase that has its card, and no two purchases have one card. An exchange leaves
/// every other lane and every other card; that of a lane that waits changes nothing. A card counts a loss
/// of power exactly where the lines tell one.
pub fn lanes_are_sound()
    ensures sound { WorldsAreSound }
    ensures losses { LossesAreTold }
    ensures apart { LanesStayApart }
    ensures idle { IdleLanesStay }
{}

/// Where every lane waits, every purchase is over, and so it is in the settlement and in the audit. A run
/// comes to no more ended purchases, captures and steps of an audit than its scenario allows.
pub fn runs_end()
    ensures stuck { StuckIsOver }
    ensures calm { CalmIsOver }
    ensures few { WorldsAreFew }
    ensures settlements { SettlementsAreFew }
    ensures checks { ChecksAreFew }
{}

/// A GENERATE AC that a card answers 9000 adds one row to those of its cryptograms, with the purchase that has
/// the card and the counter that the answer holds; nothing else adds one. While a purchase has a card, and
/// behind each answer, an answer rests on every decision that the card has kept.
pub fn cards_are_told()
    ensures given { GivenIsTold }
    ensures left { GivenIsLeft }
    ensures held { HeldIsSure }
    ensures answered { AnsweredIsSure }
{}

/// The lines of a lane between a power line and an end line are the replies of that purchase, and those behind
/// the last power line are the replies of the one that runs. The end line tells the end record of the dialogue
/// over these replies. The messages that a lane made for the host are those of its lines. Messages and replies of
/// the host are in the lane's dialect there.
pub fn replies_are_told()
    ensures replies { RunsTellReplies }
    ensures messages { RunsTellMessages }
    ensures ends { PastsEnd }
{}

/// Where lanes speak other dialects with the host, a run with the same truth values comes to the same world in as
/// many events, and its lines differ in the spelling of messages and replies alone.
pub fn dialects_show()
    ensures reached { DialectsShow }
    ensures whole { WholeDialectsShow }
{}

/// Each card has lost its power as often as the lines tell: a `torn` line is of the card in its lane's last power
/// line.
pub fn losses_are_told()
    ensures reached { RunsTellLosses }
    ensures whole { WholeRunsTellLosses }
{}

/// In every run each command in its lines is what the dialogue of the lane's purchase asks there, behind what its terminal was
/// told until then. The line behind it is the answer of the card's definition, for the decisions that the card has kept and
/// its session, or tells that the power was cut or that no canned answer was left. The session is what the lines of the lane
/// tell since its last power line: each command with its answer. A card of canned answers has given so many of them.
pub fn commands_are_told()
    ensures asked { RunsAsk }
    ensures whole { WholeRunsAsk }
    ensures sessions { RunsTellSessions }
{}

/// In every run each line that names a card has a name without a blank, so that the name ends where the blank behind
/// it stands.
pub fn cards_are_named()
    ensures reached { RunsNameCards }
    ensures whole { WholeRunsNameCards }
{}

/// Where no tear of a scenario leaves a choice, no card of a world that a run comes to has a decision that may be
/// kept or not, no store has a lost call, and there is one run.
pub fn run_is_one()
    ensures closed { NoneIsOpen }
    ensures one { RunIsOne }
{}

/// Two runs of a scenario that leave the same pages, with no decision open, end with the same totals of every card
/// with applications, whatever their lines.
pub fn pages_tell_totals()
    ensures { PagesTellTotals }
{}

/// Of a lane that keeps its captures durably, each capture of a purchase that wasn't lost is sent whole, in the
/// order of the purchases; that of a lost purchase is sent whole or never; one may be sent again, as its drop may be
/// lost. A lane without a tear of its terminal sends each exactly once. What is sent comes to the host, all its copies,
/// in this order, and a presentment's transaction is booked where the host's reply to it has code 00. A lane has lost
/// as many purchases as its lines tell.
pub fn captures_are_sent()
    ensures sent { CapturesAreSent }
    ensures lost { LostAreTold }
    ensures lost_whole { WholeRunsTellLost }
{}

/// A store never holds more than seven messages, and has room while a purchase runs. The settlement goes through
/// what its opening has found, and behind it nothing is left in a store and no call is lost.
pub fn stores_are_emptied()
    ensures kept { StoresAreKept }
    ensures through { SettlementGoesThrough }
    ensures emptied { StoresAreEmptied }
{}

/// A lane whose cards no other lane's purchase names, and whose account numbers no other lane's message carries, runs as
/// if it were alone: its lines, the audit of its cards and the balances of its accounts are those of a run of the lane
/// alone. These numbers may be just those that its own messages carry. Each event of a run is one of the lane alone, or
/// none of it. The lane alone is made of nothing else of the scenario, and where no tear of the lane leaves a choice, it
/// has one run.
pub fn lanes_stand_alone()
    ensures alone { LanesStandAlone }
    ensures numbers { CarriedAreOwn }
    ensures first { FirstPartsAgree }
    ensures steps { StepsComeApart }
    ensures own { AloneIsOwn }
    ensures one { LaneRunIsOne }
{
    accounts_stand_apart();
}
