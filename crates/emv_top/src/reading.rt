//! The reading of a card, and its data objects line by line.
ghost use Rattle.std.specs.Prelude.{◌≡◌, ◌≤◌, ◌<◌, ℕ, List, ◌∷◌, [], ◌++◌, length, map, OnOk, OnErr, IfSome};
ghost use Rattle.std.specs.List.{All};
ghost use Rattle.std.specs.Io.KnownBytes.{Appends};
ghost use Rattle.ber_tlv.specs.Item.{AreBytes};
ghost use Rattle.emv_ports.specs.Growth.{AppendsFront};
ghost use Rattle.emv_top.specs.Answers.{Completes};
ghost use Rattle.emv_top.specs.RunsSoFar.{IsPlayed, ReadOfBytes, ReadsLane, RunWasStopped, shown_lines};
ghost use Rattle.emv_top.specs.Input.{first_purchases};
ghost use Rattle.emv_top.specs.Short.{AllShort, HasShortObjects};
ghost use Rattle.emv_top.specs.Stops.{Emits, HasStop};
ghost use Rattle.emv_top.specs.Texts.{text_of_lines};
ghost use Rattle.report_text.specs.Text.{line_text};
ghost use Rattle.report_text.specs.Told.{HasLineBytes, IsEndingTold};
ghost use Rattle.scenario_plan.specs.Plan.{ScenarioData};
ghost use Rattle.txn_replay.specs.Reading.{is_read, data_at, ending_at, read_lines, object_line, to_read};
ghost use Rattle.txn_replay.specs.World.{World as Told, first_world};
ghost use Rattle.txn_replay.specs.Seen.{WorldStands};

use crate::events::read_turn;
use crate::lines::{EventBuffers, emit};
use crate::stop::Stop;
use arrayvec::ArrayVec;
use ber_tlv::Tag;
use emv_dict::{Cause, Ending};
use emv_ports::{Pages, Sink};
use env_map::Env;
use object_lists::CardData;
use report_text::{Line, Text};
use scenario_plan::Scenario;
use txn_replay::World;

fn copied<const N: usize>(bytes: &[u8]) -> ArrayVec<u8, N>
    requires { length bytes.now ≤ N }
    ensures { result.items ≡ bytes.now }
{
    let mut copy = ArrayVec::new();
    if copy.try_extend_from_slice(bytes).is_err() {
        unreachable!();
    }
    copy
}

fn object_line(tag: Tag, value: &[u8]) -> Line
    requires { length value.now ≤ 256 }
    ensures { result ≡ object_line (tag.0, value.now) }
{
    Line::Object {
        tag,
        value: copied(value),
    }
}

/// The line of a data object.
fn write_object<K: Sink>(tag: Tag, value: &[u8], text: &mut Text, sink: &mut K) -> Result<(), Stop>
    requires { length value.now ≤ 256 }
    ensures { Emits (line_text (object_line (tag.0, value.now))) (K.held sink.old) (K.held sink.new) (K.faults sink.old) (K.faults sink.new) result }
{
    let line = object_line(tag, value);
    emit(&line, text, sink)
}

/// A line for each data object, by rising tag.
fn write_objects<K: Sink>(env: &Env, text: &mut Text, sink: &mut K) -> Result<(), Stop>
    requires { AllShort env.now }
    ensures { Emits (text_of_lines (map object_line env.now)) (K.held sink.old) (K.held sink.new) (K.faults sink.old) (K.faults sink.new) result }
{
    let mut last = None;
    while let Some((tag, value)) = env.after(last) {
        match write_object(tag, value, text, sink) {
            Ok(()) => last = Some(tag),
            Err(stop) => return Err(stop),
        }
    }
    Ok(())
}

/// The lines of a finished reading.
fn write_card<K: Sink>(card: &CardData, text: &mut Text, sink: &mut K) -> Result<(), Stop>
    requires { AllShort card.now.entries }
    ensures { Emits (text_of_lines (map object_line card.now.entries ++ Line.ReadOk ∷ [])) (K.held sink.old) (K.held sink.new) (K.faults sink.old) (K.faults sink.new) result }
{
    match write_objects(card.env(), text, sink) {
        Ok(()) => emit(&Line::ReadOk, text, sink),
        Err(stop) => Err(stop),
    }
}

/// The lines behind the events of a reading.
fn write_reading<P: Pages, K: Sink>(
    world: &World<'_, P>,
    text: &mut Text,
    sink: &mut K,
) -> Result<(), Stop>
    requires lane { 0 < length world.now.scenario.lanes }
    requires short { (w : Told) × WorldStands world.now w × IfSome (data_at world.now.scenario w 0) HasShortObjects }
    ensures all { OnOk result ((w : Told) → WorldStands world.now w → Appends (K.held sink.old) (K.held sink.new)
        (text_of_lines (read_lines (data_at world.now.scenario w 0) (ending_at w 0)))) }
    ensures front { OnErr result ((w : Told) → WorldStands world.now w → AppendsFront (K.held sink.old) (K.held sink.new)
        (text_of_lines (read_lines (data_at world.now.scenario w 0) (ending_at w 0)))) }
    ensures stop { HasStop (K.faults sink.old) (K.faults sink.new) result }
{
    match world.read_data(0) {
        Some(card) => write_card(card, text, sink),
        None => match world.ending(0) {
            Some(ending) => emit(&Line::ReadEnded { ending }, text, sink),
            None => Ok(()),
        },
    }
}

/// Bytes are below 256.
fn bytes_fit(bytes: &[u8])
    ensures { AreBytes bytes.now }
{
    let _count = bytes.len();
}

/// What a cause names is a byte.
fn ending_fits(ending: Ending)
    ensures { IsEndingTold ending }
{
    match ending {
        Ending::Terminated(_, Cause::Kind(information)) => bytes_fit(&[information]),
        _ => {}
    }
}

/// The values of data objects are bytes.
fn values_fit(env: &Env)
    ensures { All (λ entry. AreBytes entry.1) env.now }
{
    let mut last = None;
    while let Some((tag, value)) = env.after(last) {
        bytes_fit(value);
        last = Some(tag);
    }
}

/// The bytes of the lines behind the events of a reading are bytes.
fn reading_fits<P: Pages>(world: &World<'_, P>)
    requires { 0 < length world.now.scenario.lanes }
    ensures { (w : Told) → WorldStands world.now w → All HasLineBytes (read_lines (data_at world.now.scenario w 0) (ending_at w 0)) }
{
    match world.read_data(0) {
        Some(card) => values_fit(card.env()),
        None => match world.ending(0) {
            Some(ending) => ending_fits(ending),
            None => {}
        },
    }
}

/// Whether reading is finished, or the purchase has ended.
fn is_read<P: Pages>(world: &World<'_, P>) -> bool
    requires { 0 < length world.now.scenario.lanes }
    ensures { (w : Told) → WorldStands world.now w → result ≡ is_read world.now.scenario w }
{
    world.read_data(0).is_some() || world.ending(0).is_some()
}

/// The reading of a card in the first lane's first purchase.
pub fn read_through<P: Pages, K: Sink>(
    scenario: &Scenario,
    world: &mut World<'_, P>,
    sink: &mut K,
) -> Result<(), Stop>
    requires played { IsPlayed scenario.now world.old }
    requires some { 1 ≤ length (first_purchases scenario.now.lanes) }
    requires untorn { (s : ScenarioData) × (scenario.now ≡ to_read s) }
    requires start { WorldStands world.old (first_world scenario.now) }
    ensures ok { OnOk result ((s : ScenarioData) → scenario.now ≡ to_read s
        → Completes (ReadOfBytes s) (WorldStands world.new) (K.held sink.old) (K.held sink.new)) }
    ensures err { OnErr result (RunWasStopped scenario.now shown_lines (ReadsLane scenario.now) (WorldStands world.new) (K.held sink.old) (K.held sink.new)) }
    ensures told { world.new.scenario ≡ scenario.now }
    ensures stop { HasStop (K.faults sink.old) (K.faults sink.new) result }
{
    let mut room = EventBuffers::new();
    while !is_read(world) {
        match read_turn(world, &mut room, sink) {
            Ok(_) => {}
            Err(stop) => return Err(stop),
        }
    }
    reading_fits(world);
    write_reading(world, &mut room.text, sink)
}
