ghost use Rattle.std.specs.Prelude.{◌≡◌, ◌≤◌, ◌↔◌, length, IsSome, IfSome};
ghost use Rattle.emv_dict.specs.Name.{IsName};

use arrayvec::ArrayVec;
use std::marker::Model;

/// An application's or a directory's name: 1 to 16 bytes (EMV 4.3 Book 1 section 12.2.1).
/// Contracts see the list of the bytes.
#[derive(Drop, PartialEq, Eq, Hash, Debug)]
pub struct Name(pub ArrayVec<u8, 16>);

impl Model for Name {
    ghost use Rattle.std.specs.Prelude.{List, ℕ};

    ghost Value = { List ℕ };

    ghost use Rattle.emv_dict.specs.Name.{IsName};

    ghost view = { λ n. n.0.items };

    ghost invariant = { λ n. IsName n.0.items };

    ghost inverse = { λ bytes. record { 0 = record { items = bytes } } };
}

impl Name {
    /// The name of these bytes, where they are 1 to 16.
    pub fn new(bytes: &[u8]) -> Option<Name>
        ensures name { IsSome result ↔ IsName bytes.now }
        ensures value { IfSome result (λ n. n ≡ bytes.now) }
    {
        if !bytes.is_empty() && bytes.len() <= 16 {
            Some(Name(copied(bytes)))
        } else {
            None
        }
    }

    /// The bytes of the name.
    pub fn as_slice(&self) -> &[u8]
        ensures value { result.now ≡ self.now }
        ensures name { IsName result.now }
    {
        self.0.as_slice()
    }

    /// The same name once more. Takes no memory, so that it needs no `Result`.
    pub fn copy(&self) -> Name
        ensures { result ≡ self.now }
    {
        Name(copied(self.as_slice()))
    }
}

/// The bytes in a vector of fixed room.
fn copied(bytes: &[u8]) -> ArrayVec<u8, 16>
    requires { length bytes.now ≤ 16 }
    ensures { result.items ≡ bytes.now }
{
    let mut items = ArrayVec::new();
    match items.try_extend_from_slice(bytes) {
        Ok(()) => items,
        Err(_) => unreachable!(),
    }
}
