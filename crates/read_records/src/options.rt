//! The answer to GET PROCESSING OPTIONS (EMV 4.3 Book 3 section 6.5.8.4).
ghost use Rattle.std.specs.Prelude.{◌≡◌, ◌≤◌, ◌<◌, ℕ, List, length, Ok, Err, IfOk, IfSome, MatchResult, option_map};
ghost use Rattle.ber_tlv.specs.Left.{items_of};
ghost use Rattle.read_records.specs.Afl.{places_of, most_records};
ghost use Rattle.read_records.specs.Options.{options_in, options_in_format_one, options_in_format_two, options_of_objects, profile_and_locator, options_said};
ghost use Rattle.object_lists.specs.Coding.{coding_cause};
ghost use Rattle.read_records.specs.SeenOptions.{seen_options, seen_options_said, IsGrantedInRange};

use crate::afl::{Groups, read_afl};
use apdu_core::read_response;
use apdu_core::status::{CONDITIONS_NOT_SATISFIED, NO_ERROR};
use ber_tlv::{Tag, first_value, sole_value};
use emv_dict::Cause;
use object_lists::coding_cause;

/// What a card gives for GET PROCESSING OPTIONS.
#[derive(Drop)]
pub(crate) struct Options<'a> {
    /// The application interchange profile.
    pub aip: [u8; 2],
    /// The application file locator.
    pub afl: &'a [u8],
    /// The groups that it spells.
    pub groups: Groups,
}

/// What an answer to GET PROCESSING OPTIONS says.
#[derive(Drop)]
pub(crate) enum Said<'a> {
    /// The application is not to be used now.
    Refused,
    /// The application may be read.
    Granted(Options<'a>),
    /// The transaction ends for this cause.
    Faulty(Cause),
}

/// Reads an answer.
#[tactic(auto, unfolding(crate::specs::Options::options_said))]
pub(crate) fn read_answer(reply: &[u8]) -> Said<'_>
    ensures exact { seen_options_said result ≡ options_said reply.now }
    ensures sound { IsGrantedInRange result }
{
    let Ok(response) = read_response(reply) else {
        return Said::Faulty(Cause::Answer);
    };
    if response.status == CONDITIONS_NOT_SATISFIED {
        return Said::Refused;
    }
    if response.status != NO_ERROR {
        return Said::Faulty(Cause::Status(response.status));
    }
    match read_options(response.body) {
        Ok(options) => Said::Granted(options),
        Err(cause) => Said::Faulty(cause),
    }
}

/// Reads the body of an answer: format 1, one object 80 with the profile and the locator, or format 2,
/// one template 77 with the two objects.
#[tactic(auto, unfolding(crate::specs::Options::options_in))]
pub(crate) fn read_options(body: &[u8]) -> Result<Options<'_>, Cause>
    requires { length body.now ≤ 256 }
    ensures exact { MatchResult result
        (λ options. options_in body.now ≡ Ok (seen_options options))
        (λ cause. options_in body.now ≡ Err cause) }
    ensures some { IfOk result (λ options. 0 < length options.groups.items) }
    ensures short { IfOk result (λ options. length options.afl.now < 256) }
    ensures few { IfOk result (λ options. length (places_of options.groups.items) ≤ most_records) }
{
    if let Some(value) = sole_value(body, Tag(0x80)) {
        return read_format_one(value);
    }
    match sole_value(body, Tag(0x77)) {
        Some(template) => read_format_two(body, template),
        None => Err(coding_cause(body)),
    }
}

fn read_format_one(value: &[u8]) -> Result<Options<'_>, Cause>
    requires { length value.now < 256 }
    ensures exact { MatchResult result
        (λ options. options_in_format_one value.now ≡ Ok (seen_options options))
        (λ cause. options_in_format_one value.now ≡ Err cause) }
    ensures some { IfOk result (λ options. 0 < length options.groups.items) }
    ensures short { IfOk result (λ options. length options.afl.now < 256) }
    ensures few { IfOk result (λ options. length (places_of options.groups.items) ≤ most_records) }
{
    match value {
        [high, low, afl @ ..] => with_groups([*high, *low], afl),
        _ => Err(Cause::Value(Tag(0x80))),
    }
}

fn read_format_two<'a>(body: &[u8], template: &'a [u8]) -> Result<Options<'a>, Cause>
    requires { length template.now < 256 }
    ensures exact { MatchResult result
        (λ options. options_in_format_two body.now (items_of template.now) ≡ Ok (seen_options options))
        (λ cause. options_in_format_two body.now (items_of template.now) ≡ Err cause) }
    ensures some { IfOk result (λ options. 0 < length options.groups.items) }
    ensures short { IfOk result (λ options. length options.afl.now < 256) }
    ensures few { IfOk result (λ options. length (places_of options.groups.items) ≤ most_records) }
{
    let Ok(profile) = first_value(template, Tag(0x82)) else {
        return Err(coding_cause(body));
    };
    let Ok(locator) = first_value(template, Tag(0x94)) else {
        return Err(coding_cause(body));
    };
    of_objects(profile, locator)
}

fn of_objects<'a>(profile: Option<&[u8]>, locator: Option<&'a [u8]>) -> Result<Options<'a>, Cause>
    requires { IfSome (option_map (λ afl. afl.now) locator) (λ afl. length afl < 256) }
    ensures exact { MatchResult result
        (λ options. options_of_objects (option_map (λ p. p.now) profile.entry) (option_map (λ l. l.now) locator.entry) ≡ Ok (seen_options options))
        (λ cause. options_of_objects (option_map (λ p. p.now) profile.entry) (option_map (λ l. l.now) locator.entry) ≡ Err cause) }
    ensures some { IfOk result (λ options. 0 < length options.groups.items) }
    ensures short { IfOk result (λ options. length options.afl.now < 256) }
    ensures few { IfOk result (λ options. length (places_of options.groups.items) ≤ most_records) }
{
    let Some(profile) = profile else {
        return Err(Cause::Missing(Tag(0x82)));
    };
    let Some(afl) = locator else {
        return Err(Cause::Missing(Tag(0x94)));
    };
    match profile {
        [high, low] => with_groups([*high, *low], afl),
        _ => Err(Cause::Value(Tag(0x82))),
    }
}

fn with_groups(aip: [u8; 2], afl: &[u8]) -> Result<Options<'_>, Cause>
    requires { length afl.now < 256 }
    ensures exact { MatchResult result
        (λ options. profile_and_locator aip afl.now ≡ Ok (seen_options options))
        (λ cause. profile_and_locator aip afl.now ≡ Err cause) }
    ensures some { IfOk result (λ options. 0 < length options.groups.items) }
    ensures short { IfOk result (λ options. length options.afl.now < 256) }
    ensures few { IfOk result (λ options. length (places_of options.groups.items) ≤ most_records) }
{
    match read_afl(afl) {
        Ok(groups) => Ok(Options { aip, afl, groups }),
        Err(number) => Err(Cause::Afl(number)),
    }
}
