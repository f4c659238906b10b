use emv_dict::Cause;

/// The first part of a whole application that an application breaks.
#[derive(Clone, Copy, PartialEq, Eq, Debug)]
pub enum AppFault {
    /// A terminal that reads the application's own data stops for this cause: its locator, a record or an object.
    Reading(Cause),
    /// The object list of the first GENERATE AC in its records (8C) can't be read, or wants another count of bytes than the
    /// list with which the application takes the data.
    FirstList,
    /// The same of the second GENERATE AC (8D).
    SecondList,
    /// In format 2 the locator has no room in the answer to GET PROCESSING OPTIONS.
    Locator,
}

/// The first part of a well-formed card that a card breaks, in the order in which they are tried. Applications are counted
/// from 0, in the order of the card's image.
#[derive(Clone, Copy, PartialEq, Eq, Debug)]
pub enum CardFault {
    /// The card is blocked.
    Blocked,
    /// Of these two applications the name of one begins the other's.
    Clash { first: u8, second: u8 },
    /// No application can serve the purchase.
    Unserved,
    /// An application isn't whole.
    App { app: u8, fault: AppFault },
}
