//! SELECT and its answer (EMV 4.3 Book 1 section 11.3).
ghost use Rattle.std.specs.Prelude.{◌≡◌, ◌≤◌, ◌<◌, length, option_map, is_some, IfSome};
ghost use Rattle.ber_tlv.specs.Direct.{first_value as value_in};
ghost use Rattle.ber_tlv.specs.Left.{items_of};
ghost use Rattle.app_select.specs.Fci.{fci_in, fci_of, fitting_name, proprietary_in, proprietary_of, with_priority};
ghost use Rattle.app_select.specs.Said.{select_said, said_fci, IsSaidShort};
ghost use Rattle.app_select.specs.SeenSaid.{seen_fci, seen_proprietary, seen_select_said};

use apdu_core::read_response;
use apdu_core::status::{FILE_INVALIDATED, FUNCTION_NOT_SUPPORTED, NO_ERROR};
use ber_tlv::{Tag, first_value, sole_value};
use emv_dict::Name;

/// What stands in a proprietary template (A5).
#[derive(Drop)]
pub(crate) struct Proprietary<'a> {
    /// The application priority indicator (87).
    pub priority: Option<u8>,
    /// The processing options data object list (9F38).
    pub pdol: Option<&'a [u8]>,
}

/// What a readable FCI gives.
#[derive(Drop)]
pub(crate) struct Fci<'a> {
    /// The dedicated file name (84).
    pub name: Name,
    /// The application priority indicator (87).
    pub priority: Option<u8>,
    /// The processing options data object list (9F38).
    pub pdol: Option<&'a [u8]>,
}

/// What an answer to SELECT says.
#[derive(Drop)]
pub(crate) enum Said<'a> {
    /// It is no response.
    Unreadable,
    /// The card is blocked.
    Blocked,
    /// The application with this FCI is selected. It is invalidated where `valid` is false.
    Named { valid: bool, fci: Fci<'a> },
    /// Anything else.
    Nothing,
}

/// Reads an answer to SELECT.
#[tactic(auto, using(crate::proofs::Bounds::said_short), unfolding(crate::specs::Said::select_said))]
pub(crate) fn read_select(reply: &[u8]) -> Said<'_>
    ensures exact { seen_select_said result ≡ select_said reply.now }
    ensures short { IsSaidShort (select_said reply.now) }
{
    let Ok(response) = read_response(reply) else {
        return Said::Unreadable;
    };
    match response.status {
        FUNCTION_NOT_SUPPORTED => Said::Blocked,
        NO_ERROR => named(true, response.body),
        FILE_INVALIDATED => named(false, response.body),
        _ => Said::Nothing,
    }
}

fn named(valid: bool, body: &[u8]) -> Said<'_>
    requires { length body.now ≤ 256 }
    ensures { seen_select_said result ≡ said_fci valid (fci_of body.now) }
{
    match read_fci(body) {
        Some(fci) => Said::Named { valid, fci },
        None => Said::Nothing,
    }
}

/// Reads an FCI: the body is one template 6F, in which the name 84 stands, of 1 to 16 bytes, and may
/// stand a template A5 whose first 87 has one byte.
#[tactic(auto, unfolding(crate::specs::Fci::fci_of))]
pub(crate) fn read_fci(body: &[u8]) -> Option<Fci<'_>>
    requires { length body.now ≤ 256 }
    ensures { option_map seen_fci result ≡ fci_of body.now }
{
    let template = sole_value(body, Tag(0x6f))?;
    read_template(template)
}

/// Whether a body of at most 256 bytes is an FCI that can be read (EMV 4.3 Book 1 section 11.3.4).
pub fn is_readable(body: &[u8]) -> bool
    requires { length body.now ≤ 256 }
    ensures { result ≡ is_some (fci_of body.now) }
{
    read_fci(body).is_some()
}

#[tactic(auto, unfolding(crate::specs::Fci::fci_in))]
fn read_template(template: &[u8]) -> Option<Fci<'_>>
    requires { length template.now < 256 }
    ensures { option_map seen_fci result ≡ fci_in (items_of template.now) }
{
    let Ok(name) = first_value(template, Tag(0x84)) else {
        return None;
    };
    let Ok(proprietary) = first_value(template, Tag(0xa5)) else {
        return None;
    };
    let name = fitting_name(name)?;
    let Proprietary { priority, pdol } = read_proprietary(proprietary)?;
    Some(Fci {
        name,
        priority,
        pdol,
    })
}

fn fitting_name(name: Option<&[u8]>) -> Option<Name>
    ensures { result ≡ fitting_name (option_map (λ given. given.now) name.entry) }
{
    Name::new(name?)
}

fn read_proprietary(template: Option<&[u8]>) -> Option<Proprietary<'_>>
    ensures { option_map seen_proprietary result ≡ proprietary_of (option_map (λ given. given.now) template.entry) }
{
    match template {
        Some(template) => objects_in(template),
        None => Some(Proprietary {
            priority: None,
            pdol: None,
        }),
    }
}

#[tactic(auto, unfolding(crate::specs::Fci::proprietary_in))]
fn objects_in(template: &[u8]) -> Option<Proprietary<'_>>
    ensures { option_map seen_proprietary result ≡ proprietary_in (items_of template.now) }
{
    let Ok(priority) = first_value(template, Tag(0x87)) else {
        return None;
    };
    let Ok(pdol) = first_value(template, Tag(0x9f38)) else {
        return None;
    };
    with_priority(priority, pdol)
}

fn with_priority<'a>(priority: Option<&[u8]>, pdol: Option<&'a [u8]>) -> Option<Proprietary<'a>>
    ensures { option_map seen_proprietary result
        ≡ with_priority (option_map (λ given. given.now) priority.entry) (option_map (λ given. given.now) pdol.entry) }
{
    let priority = match priority {
        None => None,
        Some([byte]) => Some(*byte),
        Some(_) => return None,
    };
    Some(Proprietary { priority, pdol })
}
