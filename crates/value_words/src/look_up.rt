//! What the table of names says of a tag.
ghost use Rattle.std.specs.Prelude.{◌≡◌, map};
ghost use Rattle.std.specs.Option.{option_map};
ghost use Rattle.value_words.specs.Words.{tag_name_in};

use crate::names::{Form, NAMES};
use ber_tlv::Tag;

/// The name of the object of a tag and how its value is told, or `None` where it has no name.
pub fn name_of(tag: Tag) -> Option<(&'static [u8], Form)>
    ensures { option_map (λ named. (named.0.now, named.1)) result ≡ tag_name_in (map (λ n. (n.0, n.1.now, n.2)) NAMES) tag.0 }
{
    name_among(&NAMES, tag)
}

#[tactic(auto, unfolding(crate::specs::Words::tag_name_in))]
fn name_among(mut names: &[(u32, &'static [u8], Form)], tag: Tag) -> Option<(&'static [u8], Form)>
    ensures { option_map (λ named. (named.0.now, named.1)) result ≡ tag_name_in (map (λ n. (n.0, n.1.now, n.2)) names.entry.now) tag.0 }
{
    while let [entry, rest @ ..] = names {
        if entry.0 == tag.0 {
            return Some((entry.1, entry.2));
        }
        names = rest;
    }
    None
}
