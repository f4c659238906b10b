//! What is known of the cards beside the report: what an application may approve without its issuer.

use arrayvec::ArrayVec;

/// The limits of an application's offline approvals, and its currencies, each as the number of its two bytes.
#[derive(Clone, Copy, PartialEq, Eq, Debug)]
pub struct Limits {
    /// The limit of their number.
    pub count: u64,
    /// The limit of their sum in the application's currency.
    pub sum: u64,
    pub currency: u64,
    /// The same of the second currency, where it has one.
    pub second_sum: u64,
    pub second_currency: Option<u64>,
}

/// An application of a card, by the card's name in the report and by its own.
#[derive(Drop)]
pub struct CardApp {
    pub card: ArrayVec<u8, 16>,
    /// Its place among the card's applications, from 0.
    pub place: u8,
    /// Its name (DF name, 84).
    pub name: ArrayVec<u8, 16>,
    pub limits: Limits,
}

/// A limit behind the lines that came.
#[derive(Clone, Copy, PartialEq, Eq, Debug)]
pub enum Limit {
    /// As the card was made.
    AsMade,
    /// A script set it.
    Set(u64),
    /// The card was pulled out while a script set it.
    Unsure,
}

/// The limits of an application that scripts have set.
#[derive(Drop)]
pub struct ChangedLimits {
    pub card: ArrayVec<u8, 16>,
    pub name: ArrayVec<u8, 16>,
    pub count: Limit,
    pub sum: Limit,
}
