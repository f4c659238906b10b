ghost use Rattle.std.specs.Prelude.{◌≡◌, map};
ghost use Rattle.emv_dict.specs.Dictionary.{row_in, dictionary};
ghost use Rattle.emv_dict.specs.Listing.{listed_row};

use ber_tlv::Tag;

/// How a data object's value is written (EMV 4.3 Book 3 section 4.3).
#[derive(Clone, Copy, PartialEq, Eq, Debug)]
pub enum Format {
    /// Two decimal digits a byte, filled on the left with zeros: `n`.
    Numeric,
    /// Two decimal digits a byte, filled on the right with the hexadecimal digit F: `cn`.
    Compressed,
    /// Characters: `a`, `an` or `ans`.
    Text,
    /// Bits and bytes: `b`, and objects that are lists of objects.
    Binary,
}

/// Who gives a data object (the column "Source" of EMV 4.3 Book 3 Annex A).
#[derive(Clone, Copy, PartialEq, Eq, Debug)]
pub enum Origin {
    Card,
    Terminal,
    Issuer,
}

/// What the dictionary says of one data object.
#[derive(Clone, Copy, PartialEq, Eq, Debug)]
pub struct Row {
    pub format: Format,
    pub origin: Origin,
}

/// One line of the table below: a tag, as the big-endian number of its bytes, its format and origin.
#[derive(Clone, Copy)]
struct Object(u32, Format, Origin);

/// The data objects of EMV 4.3 Book 3 Annex A that a contact payment of this profile uses.
const OBJECTS: [Object; 48] = [
    Object(0x5f24, Format::Numeric, Origin::Card),
    Object(0x5f25, Format::Numeric, Origin::Card),
    Object(0x5f28, Format::Numeric, Origin::Card),
    Object(0x5f30, Format::Numeric, Origin::Card),
    Object(0x5f34, Format::Numeric, Origin::Card),
    Object(0x9f42, Format::Numeric, Origin::Card),
    Object(0x5a, Format::Compressed, Origin::Card),
    Object(0x50, Format::Text, Origin::Card),
    Object(0x5f20, Format::Text, Origin::Card),
    Object(0x9f1f, Format::Text, Origin::Card),
    Object(0x57, Format::Binary, Origin::Card),
    Object(0x82, Format::Binary, Origin::Card),
    Object(0x8c, Format::Binary, Origin::Card),
    Object(0x8d, Format::Binary, Origin::Card),
    Object(0x8e, Format::Binary, Origin::Card),
    Object(0x94, Format::Binary, Origin::Card),
    Object(0x9f07, Format::Binary, Origin::Card),
    Object(0x9f08, Format::Binary, Origin::Card),
    Object(0x9f0d, Format::Binary, Origin::Card),
    Object(0x9f0e, Format::Binary, Origin::Card),
    Object(0x9f0f, Format::Binary, Origin::Card),
    Object(0x9f10, Format::Binary, Origin::Card),
    Object(0x9f13, Format::Binary, Origin::Card),
    Object(0x9f14, Format::Binary, Origin::Card),
    Object(0x9f17, Format::Binary, Origin::Card),
    Object(0x9f23, Format::Binary, Origin::Card),
    Object(0x9f26, Format::Binary, Origin::Card),
    Object(0x9f27, Format::Binary, Origin::Card),
    Object(0x9f36, Format::Binary, Origin::Card),
    Object(0x9f4a, Format::Binary, Origin::Card),
    Object(0x5f2a, Format::Numeric, Origin::Terminal),
    Object(0x9a, Format::Numeric, Origin::Terminal),
    Object(0x9c, Format::Numeric, Origin::Terminal),
    Object(0x9f02, Format::Numeric, Origin::Terminal),
    Object(0x9f03, Format::Numeric, Origin::Terminal),
    Object(0x9f1a, Format::Numeric, Origin::Terminal),
    Object(0x9f21, Format::Numeric, Origin::Terminal),
    Object(0x9f35, Format::Numeric, Origin::Terminal),
    Object(0x9f1c, Format::Text, Origin::Terminal),
    Object(0x95, Format::Binary, Origin::Terminal),
    Object(0x9b, Format::Binary, Origin::Terminal),
    Object(0x9f06, Format::Binary, Origin::Terminal),
    Object(0x9f09, Format::Binary, Origin::Terminal),
    Object(0x9f33, Format::Binary, Origin::Terminal),
    Object(0x9f34, Format::Binary, Origin::Terminal),
    Object(0x9f37, Format::Binary, Origin::Terminal),
    Object(0x8a, Format::Text, Origin::Issuer),
    Object(0x91, Format::Binary, Origin::Issuer),
];

/// What the dictionary says of the object of this tag, or `None` where it has no such object
/// (EMV 4.3 Book 3 Annex A).
#[tactic(auto, unfolding(crate::specs::Dictionary::dictionary))]
pub fn tag_row(tag: Tag) -> Option<Row>
    ensures { result ≡ row_in dictionary tag.0 }
{
    row_among(&OBJECTS, tag)
}

/// The row of the first object of this tag.
#[tactic(auto, unfolding(crate::specs::Dictionary::row_in))]
fn row_among(objects: &[Object], tag: Tag) -> Option<Row>
    ensures { result ≡ row_in (map listed_row objects.now) tag.0 }
{
    for object in objects {
        if object.0 == tag.0 {
            return Some(Row {
                format: object.1,
                origin: object.2,
            });
        }
    }
    None
}
