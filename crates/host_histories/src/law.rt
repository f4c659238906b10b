//! Laws over every list of messages.
ghost use Rattle.host_histories.specs.Apart.{StandApart};
ghost use Rattle.host_histories.specs.BookedOnce.{BookedOnce, BalancesAddUp};

/// Whatever messages a host gets, in whatever order and however often: at most one of them books a
/// transaction, and it is a presentment of it, whose amount the transaction takes from then on. Each other
/// one gets its reply again, is declined or concerns another transaction.
pub fn transactions_are_booked_once()
    ensures { BookedOnce }
{}

/// And each balance is the opening one less the amounts of its account number's transactions: the
/// presentment's where one was approved, else the request's where that was approved and no reversal was,
/// else none.
pub fn balances_add_up()
    ensures { BalancesAddUp }
{}

/// And accounts stand apart: the reply to a message and the balance of an account number are what they would
/// be if only the messages and the accounts of some account numbers were there, this one among them. A message
/// that can't be read is answered like this too, and changes nothing.
pub fn accounts_stand_apart()
    ensures { StandApart }
{}
