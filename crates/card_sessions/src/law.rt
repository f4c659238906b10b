//! Laws on how far a card has come, and on what it decides for a PIN.
ghost use Rattle.card_files.specs.Views.{ImageData};
ghost use Rattle.card_sessions.specs.SessionPhase.{BeginsIdle, TellsPhase, StaysInDirectory};
ghost use Rattle.card_sessions.specs.Tried.{TriesFirst};

/// The phase of a card is what the last SELECT that was answered with file control information, and the
/// answers behind it, make of it: idle where there is no such SELECT, in the directory where it is the
/// directory's, and behind that of an application selected before a GET PROCESSING
/// OPTIONS that was answered 9000, started before a first cryptogram, online behind a first request to go
/// online alone, closed behind a first cryptogram of another kind, and done behind two. EXTERNAL
/// AUTHENTICATE counts as sent where it was answered 9000 or 6300.
pub fn phases_are_told()
    ensures idle { (image : ImageData) → BeginsIdle image }
    ensures told { (image : ImageData) → TellsPhase image }
    ensures directory { (image : ImageData) → StaysInDirectory image }
{}

/// Where a command makes a card decide that an application's PIN was right, it decides a PIN try of this
/// application before that, and nothing else.
pub fn tries_come_first()
    ensures { (image : ImageData) → TriesFirst image }
{}
