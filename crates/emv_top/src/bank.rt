//! The pages of a run: blank ones that go in, and those that come out.
ghost use Rattle.std.specs.Prelude.{◌≡◌, length, map};
ghost use Rattle.std.specs.List.{All};
ghost use Rattle.emv_ports.specs.Memory.{IsBlank};

use emv_ports::Pages;
use std::marker::Model;

/// 64 blank pages that are off: what a run begins with. Contracts see their memories.
#[derive(Drop)]
pub struct BlankBank<P: Pages> {
    pages: Vec<P>,
}

impl<P: Pages> Model for BlankBank<P> {
    ghost use Rattle.std.specs.Prelude.{◌≡◌, List, length, map};
    ghost use Rattle.std.specs.List.{All};
    ghost use Rattle.emv_ports.specs.Memory.{IsBlank, Memory};

    ghost Value = { List Memory };

    ghost view = { λ bank. map P.memory bank.pages.items };

    ghost invariant = { λ bank. (length bank.pages.items ≡ 64) × All IsBlank (map P.memory bank.pages.items) };
}

impl<P: Pages> BlankBank<P> {
    /// The bank of these pages.
    pub fn new(pages: Vec<P>) -> Self
        requires pages { length pages.items ≡ 64 }
        requires blank { All IsBlank (map P.memory pages.items) }
        ensures { result ≡ map P.memory pages.items }
    {
        BlankBank { pages }
    }

    /// The pages themselves.
    pub fn into_pages(self) -> Vec<P>
        ensures pages { length result.items ≡ 64 }
        ensures blank { All IsBlank (map P.memory result.items) }
    {
        self.pages
    }

    /// The bank as a run leaves it that begins nothing.
    pub fn unused(self) -> UsedBank<P>
        ensures pages { length result ≡ 64 }
        ensures blank { All IsBlank result }
    {
        UsedBank { pages: self.pages }
    }
}

/// 64 pages: what a run leaves. Contracts see their memories.
#[derive(Drop)]
pub struct UsedBank<P: Pages> {
    pages: Vec<P>,
}

impl<P: Pages> Model for UsedBank<P> {
    ghost use Rattle.std.specs.Prelude.{◌≡◌, List, length, map};
    ghost use Rattle.emv_ports.specs.Memory.{Memory};

    ghost Value = { List Memory };

    ghost view = { λ bank. map P.memory bank.pages.items };

    ghost invariant = { λ bank. length bank.pages.items ≡ 64 };
}

impl<P: Pages> UsedBank<P> {
    /// The bank of these pages.
    pub fn new(pages: Vec<P>) -> Self
        requires { length pages.items ≡ 64 }
        ensures bank { result ≡ map P.memory pages.items }
        ensures pages { length result ≡ 64 }
    {
        UsedBank { pages }
    }

    /// The pages themselves.
    pub fn into_pages(self) -> Vec<P>
        ensures { map P.memory result.items ≡ self }
    {
        self.pages
    }
}
