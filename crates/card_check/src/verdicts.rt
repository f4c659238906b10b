//! The lines of a scenario's purchases.
ghost use Rattle.std.specs.Prelude.{◌≡◌, ◌++◌, length, IfOk, OnOk};
ghost use Rattle.card_check.specs.Verdicts as spec;
ghost use Rattle.card_check.specs.Judged.{card_fault, judged_outset};
ghost use Rattle.card_files.specs.Files.{opening_of};
ghost use Rattle.scenario_plan.specs.SeenCards.{seen_card, seen_cards};
ghost use Rattle.scenario_lanes.specs.Plan.{HasCards};
ghost use Rattle.std.specs.List.{All};

use crate::fault::{AppFault, CardFault};
use crate::validating::validate;
use card_files::Image;
use card_state::CardState;
use emv_dict::{Cause, Ending, Purchase, Settings, Step};
use report_text::{Line, Text, write_line};
use scenario_lanes::{Lane, Planned};
use scenario_plan::{CardKind, NamedCard, Scenario};
use std::alloc::{AllocError, Global};

/// How many bytes of a line of `read` stand before the step: `read terminated `.
const BEFORE_STEP: usize = 16;

/// Where a purchase stands in a scenario: its lane, counted from 0, and its number there, from 1.
#[derive(Clone, Copy)]
pub(crate) struct Place {
    pub lane: usize,
    pub number: usize,
}

/// Appends why reading an application's data stops, in the words of a report.
fn push_reading(cause: Cause, out: &mut Vec<u8>) -> Result<(), AllocError>
    ensures { OnOk result (out.new.items ≡ out.old.items ++ spec.reading_text cause) }
{
    let mut told = Text::new();
    let line = Line::ReadEnded {
        ending: Ending::Terminated(Step::Read, cause),
    };
    write_line(&line, &mut told);
    let (_, words) = told.as_slice().split_at(BEFORE_STEP);
    out.extend_from_slice(words)
}

/// Appends what an application breaks.
fn push_app_fault(
    alloc: Global,
    app: u8,
    fault: AppFault,
    out: &mut Vec<u8>,
) -> Result<(), AllocError>
    ensures { OnOk result (out.new.items ≡ out.old.items ++ spec.app_fault_text app fault) }
{
    let head = format!(in alloc; "app {app} ")?;
    out.extend_from_slice(head.as_bytes())?;
    match fault {
        AppFault::Reading(cause) => push_reading(cause, out),
        AppFault::FirstList => out.extend_from_slice(b"first-list\n"),
        AppFault::SecondList => out.extend_from_slice(b"second-list\n"),
        AppFault::Locator => out.extend_from_slice(b"long-locator\n"),
    }
}

/// Appends what a card breaks.
fn push_fault(alloc: Global, fault: CardFault, out: &mut Vec<u8>) -> Result<(), AllocError>
    ensures { OnOk result (out.new.items ≡ out.old.items ++ spec.fault_text fault) }
{
    match fault {
        CardFault::Blocked => out.extend_from_slice(b"card-blocked\n"),
        CardFault::Clash { first, second } => {
            let text = format!(in alloc; "names-clash app {first} app {second}\n")?;
            out.extend_from_slice(text.as_bytes())
        }
        CardFault::Unserved => out.extend_from_slice(b"none-serves\n"),
        CardFault::App { app, fault } => push_app_fault(alloc, app, fault, out),
    }
}

/// Appends the verdict on a new card of these applications.
fn push_judged(
    alloc: Global,
    image: &Image,
    settings: &Settings,
    purchase: &Purchase,
    out: &mut Vec<u8>,
) -> Result<(), AllocError>
    ensures { OnOk result (out.new.items ≡ out.old.items ++ spec.judged_text (card_fault image.now (judged_outset settings.now purchase.now) (opening_of image.now))) }
{
    let mut state = CardState::default();
    image.opening(&mut state);
    match validate(image, settings, purchase, &state) {
        Ok(()) => out.extend_from_slice(b"well-formed\n"),
        Err(fault) => push_fault(alloc, fault, out),
    }
}

/// Appends the verdict on a new card.
#[tactic(auto, unfolding(scenario_plan::specs::SeenCards::seen_card))]
fn push_verdict(
    alloc: Global,
    card: &NamedCard,
    settings: &Settings,
    purchase: &Purchase,
    out: &mut Vec<u8>,
) -> Result<(), AllocError>
    ensures { OnOk result (out.new.items ≡ out.old.items ++ spec.verdict_text (judged_outset settings.now purchase.now) (seen_card card.now)) }
{
    match &card.kind {
        CardKind::App(image) => push_judged(alloc, image, settings, purchase, out),
        CardKind::Canned(_) => out.extend_from_slice(b"canned\n"),
    }
}

/// Appends the line of a purchase with this card.
#[tactic(auto, unfolding(scenario_plan::specs::SeenCards::seen_card))]
fn push_line(
    alloc: Global,
    card: &NamedCard,
    settings: &Settings,
    place: Place,
    planned: &Planned,
    out: &mut Vec<u8>,
) -> Result<(), AllocError>
    ensures { OnOk result (out.new.items ≡ out.old.items ++ spec.verdict_line_text settings.now place.lane place.number planned.now (seen_card card.now)) }
{
    let Place { lane, number } = place;
    let head = format!(in alloc; " lane {lane} purchase {number} ")?;
    out.extend_from_slice(card.name.as_slice())?;
    out.extend_from_slice(head.as_bytes())?;
    push_verdict(alloc, card, settings, &planned.purchase, out)
}

/// Appends the lines of a lane's purchases.
fn push_lane(
    alloc: Global,
    cards: &[NamedCard],
    number: usize,
    lane: &Lane,
    out: &mut Vec<u8>,
) -> Result<(), AllocError>
    requires { HasCards (length cards.now) lane.now }
    ensures { OnOk result (out.new.items ≡ out.old.items ++ spec.lane_text (seen_cards cards.now) number lane.now) }
{
    for (index, planned) in lane.purchases.iter().enumerate() {
        let place = Place {
            lane: number,
            number: index + 1,
        };
        push_line(
            alloc,
            &cards[planned.card],
            &lane.settings,
            place,
            planned,
            out,
        )?;
    }
    Ok(())
}

/// The lines of all purchases, lane by lane.
pub(crate) fn verdicts(alloc: Global, scenario: &Scenario) -> Result<Vec<u8>, AllocError>
    requires { All (HasCards (length scenario.now.cards)) scenario.now.lanes }
    ensures { IfOk result (λ text. text.items ≡ spec.verdicts_text scenario.now) }
{
    let mut out = Vec::new(alloc);
    for (number, lane) in scenario.lanes.iter().enumerate() {
        push_lane(alloc, &scenario.cards, number, lane, &mut out)?;
    }
    Ok(out)
}
