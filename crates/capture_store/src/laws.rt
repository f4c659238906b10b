//! Laws of the store, over lists alone.
ghost use Rattle.capture_store.specs.Fitting.{StoreFits};
ghost use Rattle.capture_store.specs.Sending.{StoreKeeps, LeavesOneOfTwo};

/// From an opening through every call, made or cut at any place: whatever the next opening would find, what
/// was sent and what is left is sent of what was caught, in its order. A capture is sent once, or again, as its
/// drop may be lost, and only that of a lost purchase maybe never.
pub fn stores_keep_what_is_sent()
    ensures { StoreKeeps }
{}

/// A lost call leaves the list before it or the one behind it, whatever the next opening finds.
pub fn lost_calls_leave_one_of_two()
    ensures { LeavesOneOfTwo }
{}

/// A store holds at most seven messages, whatever the next opening finds; where an opening for a purchase
/// finds fewer, or has delivered one of seven, there is room for one more.
pub fn stores_have_room()
    ensures { StoreFits }
{}
