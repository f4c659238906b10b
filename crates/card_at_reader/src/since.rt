//! What is noted of a card's decisions since its power-up.
ghost use Rattle.std.specs.Prelude.{◌≡◌, ◌+◌, ◌++◌, ◌∷◌, [], List, OnOk, false, length};
ghost use Rattle.card_app.specs.Foretelling.{decisions_foretold};
ghost use Rattle.card_app.specs.Cuts.{fate_by};
ghost use Rattle.emv_ports.specs.Cut.{commit_of};
ghost use Rattle.card_state.specs.Decisions.{Decided};
ghost use Rattle.card_state.specs.Totals.{totals};
ghost use Rattle.card_state.specs.declared.state.CardState.{CardState as State};
ghost use Rattle.card_words.specs.DecisionText.{told_behind};
ghost use Rattle.emv_ports.specs.Cut.{names_commit};
ghost use Rattle.card_at_reader.specs.SincePower as spec;

use card_app::Foretold;
use card_state::{CardState, Decision};
use card_words::{Told, told_in};
use emv_ports::{Tear, TearAt};
use std::alloc::AllocError;

/// The decisions that a command makes a card take, as they are told.
#[derive(Clone, Copy)]
pub enum Coming {
    /// None.
    Nothing,
    /// One.
    One(Told),
    /// Two, in their order.
    Two(Told, Told),
}

/// What a card that is in this state is to decide, as it is told.
pub fn coming_in(state: &CardState, foretold: &Foretold) -> Coming
    ensures { (opening : State) (ds : List Decided) → state.now ≡ totals opening ds
        → spec.told_coming result ≡ told_behind opening ds (decisions_foretold foretold.now) }
{
    match *foretold {
        Foretold::Nothing => Coming::Nothing,
        Foretold::Decides { app, decision } => Coming::One(told_in(state, app, decision)),
        Foretold::RightPin { app, limit } => Coming::Two(
            told_in(state, app, Decision::PinTry),
            told_in(state, app, Decision::PinRight { limit }),
        ),
    }
}

/// Notes a decision.
fn note(since: &mut Vec<Told>, told: Told) -> Result<(), AllocError>
    ensures { OnOk result (since.new.items ≡ since.old.items ++ told ∷ []) }
{
    match since.push(told) {
        Ok(()) => Ok(()),
        Err(_) => Err(AllocError),
    }
}

/// Notes the decisions of a command that was answered.
pub fn note_taken(since: &mut Vec<Told>, coming: &Coming) -> Result<(), AllocError>
    ensures { OnOk result (since.new.items ≡ since.old.items ++ spec.told_coming coming.now) }
{
    match *coming {
        Coming::Nothing => Ok(()),
        Coming::One(told) => note(since, told),
        Coming::Two(first, second) => {
            note(since, first)?;
            note(since, second)
        }
    }
}

/// Whether the plan names the commit of the decision behind so many since power-up.
fn is_cut(plan: Option<Tear>, made: usize) -> bool
    ensures { result ≡ names_commit plan (commit_of (made + 1)) }
{
    let number = if made < 254 { made + 1 } else { 255 };
    match plan {
        Some(tear) => usize::from(tear.commit) == number,
        None => false,
    }
}

/// The same decision, which may be kept or not.
fn unsure(told: Told) -> Told
    ensures { result ≡ record told { sure = false } }
{
    Told {
        sure: false,
        ..told
    }
}

/// Notes what becomes of a decision that the plan cuts.
fn note_cut(since: &mut Vec<Told>, plan: Option<Tear>, told: Told) -> Result<(), AllocError>
    ensures { OnOk result (since.new.items ≡ since.old.items ++ spec.told_cut (fate_by plan) told) }
{
    match plan {
        Some(
            Tear {
                at: TearAt::Before(1),
                ..
            },
        ) => Ok(()),
        Some(
            Tear {
                at: TearAt::Release,
                ..
            },
        ) => note(since, told),
        _ => note(since, unsure(told)),
    }
}

/// Notes a decision behind so many since power-up, which the plan cuts or not.
fn note_one(
    since: &mut Vec<Told>,
    plan: Option<Tear>,
    made: usize,
    told: Told,
) -> Result<(), AllocError>
    ensures { OnOk result (since.new.items ≡ since.old.items ++ spec.told_of_cut plan made (told ∷ [])) }
{
    if is_cut(plan, made) {
        return note_cut(since, plan, told);
    }
    note(since, told)
}

/// Notes the decisions of a command of which the plan cuts one.
pub fn note_torn_off(
    since: &mut Vec<Told>,
    plan: Option<Tear>,
    coming: &Coming,
) -> Result<(), AllocError>
    ensures { OnOk result (since.new.items
        ≡ since.old.items ++ spec.told_of_cut plan (length since.old.items) (spec.told_coming coming.now)) }
{
    let made = since.len();
    match *coming {
        Coming::Nothing => Ok(()),
        Coming::One(told) => note_one(since, plan, made, told),
        Coming::Two(first, second) => {
            if is_cut(plan, made) {
                return note_cut(since, plan, first);
            }
            note(since, first)?;
            note_one(since, plan, made + 1, second)
        }
    }
}
