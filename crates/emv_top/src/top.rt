//! The top call.
ghost use Rattle.std.specs.Prelude.{◌≡◌, ◌≤◌, ◌⊎◌, IfSome, Some, map, false, length, string_bytes};
ghost use Rattle.std.specs.List.{All};
ghost use Rattle.emv_ports.specs.Causes.{Rose};
ghost use Rattle.emv_ports.specs.Memory.{IsBlank};
ghost use Rattle.emv_top.specs.Answers.{Answers, AnswersRead, Plays, TellsUsage};
ghost use Rattle.emv_top.specs.Input.{first_purchases};
ghost use Rattle.emv_top.specs.StatusCode.{ByCode, Concludes, FaultCounts};
ghost use Rattle.emv_top.specs.Subcommands.{Fulfils, SourceGives};
ghost use Rattle.emv_top.specs.Words.{HasFewPurchases, asks_source, subcommand_of};
ghost use Rattle.emv_top.specs.declared.status.Status.{Status};
ghost use Rattle.emv_top.specs.declared.words.Task.{Task};
ghost use Rattle.emv_top.specs.declared.words.Subcommand.{Subcommand};
ghost use Rattle.scenario_plan.specs.Plan.{IsScenario, ScenarioData};
ghost use Rattle.txn_replay.specs.Reading.{to_read};

use crate::bank::BlankBank;
use crate::checking::check_source;
use crate::ended::{Ended, end_world, refuse, unbegun};
use crate::generating::generate;
use crate::input::{read_input, take_tear};
use crate::reading::read_through;
use crate::replaying::replay_whole;
use crate::status::Status;
use crate::stop::Stop;
use crate::words::{Subcommand, Task, read_subcommand, usage};
use emv_ports::{Failed, Pages, ReadFault, Sink, Source, read_up_to, write_all};
use kernel::Tally;
use kernel::laws::reading_captures_nothing;
use scenario::MOST_BYTES;
use scenario_plan::Scenario;
use std::alloc::Global;
use txn_replay::{NoWorld, World, runs_are_fair};

/// The run of a scenario.
fn replay<P: Pages, K: Sink>(
    alloc: Global,
    scenario: &Scenario,
    bank: BlankBank<P>,
    sink: &mut K,
) -> Ended<P>
    requires rules { IsScenario scenario.now }
    ensures { Concludes (Plays Task.Replay scenario.now (K.held sink.old) (K.held sink.new) result.bank result.tally) (K.faults sink.old) (K.faults sink.new) result.status }
{
    match replay_whole(alloc, scenario, bank, sink) {
        Ok(world) => end_world(Status::Done, world),
        Err(ended) => ended,
    }
}

/// The reading of a card, where the scenario's first purchase has no tear.
fn read_card<P: Pages, K: Sink>(
    alloc: Global,
    scenario: &Scenario,
    bank: BlankBank<P>,
    sink: &mut K,
) -> Ended<P>
    requires rules { IsScenario scenario.now }
    requires some { 1 ≤ length (first_purchases scenario.now.lanes) }
    requires untorn { (s : ScenarioData) × (scenario.now ≡ to_read s) }
    ensures { Concludes
        (λ status. (s : ScenarioData) → scenario.now ≡ to_read s → Plays Task.Read s (K.held sink.old) (K.held sink.new) result.bank result.tally status)
        (K.faults sink.old) (K.faults sink.new) result.status }
{
    runs_are_fair();
    reading_captures_nothing();
    match World::new(alloc, scenario, bank.into_pages()) {
        Ok(world) => {
            let mut world = world;
            match read_through(scenario, &mut world, sink) {
                Ok(()) => end_world(Status::Done, world),
                Err(Stop::Sink) => end_world(Status::WriteFault, world),
                Err(Stop::OutOfMemory) => end_world(Status::OutOfMemory, world),
            }
        }
        Err(NoWorld { bank }) => unbegun(Status::OutOfMemory, BlankBank::new(bank)),
    }
}

/// What a task makes of a scenario.
fn play<P: Pages, K: Sink>(
    alloc: Global,
    task: Task,
    scenario: Scenario,
    bank: BlankBank<P>,
    sink: &mut K,
) -> Ended<P>
    requires rules { IsScenario scenario }
    requires some { task ≡ Task.Read → 1 ≤ length (first_purchases scenario.lanes) }
    ensures { Concludes (Plays task scenario (K.held sink.old) (K.held sink.new) result.bank result.tally) (K.faults sink.old) (K.faults sink.new) result.status }
{
    match task {
        Task::Replay => replay(alloc, &scenario, bank, sink),
        Task::Read => {
            let mut scenario = scenario;
            take_tear(&mut scenario);
            read_card(alloc, &scenario, bank, sink)
        }
    }
}

/// The answer to these bytes.
fn answer<P: Pages, K: Sink>(
    alloc: Global,
    task: Task,
    bytes: &[u8],
    bank: BlankBank<P>,
    sink: &mut K,
) -> Ended<P>
    ensures { Concludes (Answers task bytes.now (K.held sink.old) (K.held sink.new) result.bank result.tally) (K.faults sink.old) (K.faults sink.new) result.status }
{
    match read_input(alloc, task, bytes) {
        Ok(scenario) => play(alloc, task, scenario, bank, sink),
        Err(fault) => refuse(alloc, &fault, bank, sink),
    }
}

/// Reads the source and answers what was read.
fn read_and_answer<P: Pages, S: Source, K: Sink>(
    alloc: Global,
    task: Task,
    bank: BlankBank<P>,
    source: &mut S,
    sink: &mut K,
) -> Ended<P>
    ensures answers { AnswersRead task (S.left source.old) (S.left source.new) (K.held sink.old) (K.held sink.new) result.bank result.tally result.status }
    ensures unwritten { result.status ≡ Status.ReadFault → sink.new ≡ sink.old }
    ensures counts { FaultCounts (S.faults source.old) (S.faults source.new) (K.faults sink.old) (K.faults sink.new) result.status }
{
    match read_up_to(alloc, source, MOST_BYTES + 1) {
        Ok(bytes) => answer(alloc, task, bytes.as_slice(), bank, sink),
        Err(ReadFault::Failed) => unbegun(Status::ReadFault, bank),
        Err(ReadFault::OutOfMemory) => unbegun(Status::OutOfMemory, bank),
    }
}

/// The usage line.
fn write_usage<P: Pages, K: Sink>(bank: BlankBank<P>, sink: &mut K) -> Ended<P>
    ensures { Concludes (TellsUsage (K.held sink.old) (K.held sink.new) result.bank result.tally) (K.faults sink.old) (K.faults sink.new) result.status }
{
    match write_all(sink, usage()) {
        Ok(()) => unbegun(Status::Usage, bank),
        Err(Failed) => unbegun(Status::WriteFault, bank),
    }
}

/// The answer to what the words ask for, or to words that aren't in the grammar.
fn answer_subcommand<P: Pages, S: Source, K: Sink>(
    alloc: Global,
    subcommand: Option<Subcommand>,
    bank: BlankBank<P>,
    source: &mut S,
    sink: &mut K,
) -> Ended<P>
    requires { IfSome subcommand HasFewPurchases }
    ensures fulfils { Fulfils subcommand
        (record { left = S.left source.old; after = S.left source.new; held = K.held sink.old; holds = K.held sink.new; pages = result.bank; tally = result.tally })
        result.status }
    ensures unread { asks_source subcommand ≡ false → source.new ≡ source.old }
    ensures unwritten { result.status ≡ Status.ReadFault → sink.new ≡ sink.old }
    ensures counts { FaultCounts (S.faults source.old) (S.faults source.new) (K.faults sink.old) (K.faults sink.new) result.status }
{
    match subcommand {
        Some(Subcommand::Play(task)) => read_and_answer(alloc, task, bank, source, sink),
        Some(Subcommand::Generate(purchases)) => generate(alloc, purchases, bank, sink),
        Some(Subcommand::Check) => check_source(alloc, bank, source, sink),
        None => write_usage(bank, sink),
    }
}

/// What the top call leaves.
#[derive(Drop)]
pub struct Finished<P: Drop> {
    /// 0 done, 1 refused, 2 wrong words, 3 the source failed, 4 the sink failed, 5 no memory.
    pub status: u8,
    /// The pages, each card's and each store's at their places.
    pub bank: Vec<P>,
    /// How many purchases ended in which way, and after how many replies.
    pub tally: Tally,
}

/// Answers these words, reading from `source` where they ask for it and writing to `sink`.
///
/// The words are those behind the program's name. `read` and `replay` read a scenario, a TOML document of
/// at most 4,194,304 bytes. `replay` makes all its purchases, by the schedule and then lane by lane, then the
/// settlement and an audit of each card, and reports each exchange, each end, the balances and how many
/// purchases ended. `read` makes the first lane's first purchase, without its tears, up to the end of
/// reading, and reports the exchanges and the card's data objects. Each line is handed to the sink as soon
/// as it is made. `generate N` reads nothing: it replays the generated scenario of N purchases, from 1 to
/// 10,000, and in place of its report sums up how many were approved, declined or ended otherwise, and what
/// the accounts paid. `check` reads a trace, a TOML document of the same length, and says whether it is what
/// its terminal says to the same answers, or which entry is the first that isn't. The bank has 64 blank pages
/// that are off: the first ones for the cards in their order, the last ones, from the end, for the lanes' stores.
pub fn run<P: Pages, S: Source, K: Sink>(
    alloc: Global,
    words: &[String],
    bank: Vec<P>,
    source: &mut S,
    sink: &mut K,
) -> Finished<P>
    requires pages { length bank.items ≡ 64 }
    requires blank { All IsBlank (map P.memory bank.items) }
    // What becomes of the words, by the status that tells it: 0 done, 1 refused, 2 words that aren't in the grammar, 3 a
    // fault of the source, 4 one of the sink, 5 want of memory.
    ensures fulfils { ByCode result.status (Fulfils (subcommand_of (map string_bytes words.now)) (record {
      left = S.left source.old;
      after = S.left source.new;
      held = K.held sink.old;
      holds = K.held sink.new;
      pages = map P.memory result.bank.items;
      tally = result.tally;
    })) }
    // The source is left as it is by `generate N`, and by words that aren't in the grammar.
    ensures unread { asks_source (subcommand_of (map string_bytes words.now)) ≡ false → source.new ≡ source.old }
    ensures unwritten { result.status ≡ 3 → sink.new ≡ sink.old }
    // The source's count stays but for 3, where it rose, and the sink's but for 4.
    ensures counts { ByCode result.status (FaultCounts (S.faults source.old) (S.faults source.new) (K.faults sink.old) (K.faults sink.new)) }
    // Where the words are in the grammar, the bytes read are what they ask for, and no count rose: 0, or 5.
    ensures served { (subcommand : Subcommand) → subcommand_of (map string_bytes words.now) ≡ Some subcommand
        → SourceGives subcommand (S.left source.old) (S.left source.new)
        → (Rose (S.faults source.old) (S.faults source.new) → ⊥) → (Rose (K.faults sink.old) (K.faults sink.new) → ⊥)
        → (result.status ≡ 0) ⊎ (result.status ≡ 5) }
{
    let subcommand = read_subcommand(words);
    let ended = answer_subcommand(alloc, subcommand, BlankBank::new(bank), source, sink);
    Finished {
        status: ended.status.code(),
        bank: ended.bank.into_pages(),
        tally: ended.tally,
    }
}
