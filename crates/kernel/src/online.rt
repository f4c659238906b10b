//! Online processing: the request, the host's reply, and issuer authentication (EMV 4.3 Book 3 section 10.9).
ghost use Rattle.std.specs.Prelude.{◌≡◌, ◌∷◌, ◌+◌, ◌≤◌, List, IfSome, length, option_map, Some, None, IsSome};
ghost use Rattle.action_analysis.specs.Analysed as spec;
ghost use Rattle.auth_message.specs.Whole.{IsMessage};
ghost use Rattle.ber_tlv.specs.Left.{items_of};
ghost use Rattle.emv_dict.specs.Views.{AcData};
ghost use Rattle.emv_dict.specs.declared.purchase.Logged.{Logged};
ghost use Rattle.kernel.specs.Dialogue.{issuer_authentication, has_authentication as authentication_test, online, unable_online, is_offline_only as offline_test};
ghost use Rattle.kernel.specs.Rank.{bytes_in_templates, most_scripts};
ghost use Rattle.kernel.specs.Reply.{HostSaid, HostSilent};
ghost use Rattle.kernel.specs.Sound.{IsReplyInRange, IsIssuerData};
ghost use Rattle.kernel.specs.Stages.{HasRoomForResults};
ghost use Rattle.kernel.specs.Steps.{BeginsAs, StepComes, TakesAnswer, TakesReply};
ghost use Rattle.kernel.specs.Transactions.{transaction_of};
ghost use Rattle.kernel.specs.declared.stage.Trading.TheVariants as stage;
ghost use Rattle.online_step.specs.Request.{request_of};
ghost use Rattle.online_step.specs.TerminalData.{HasTerminalData};
ghost use Rattle.terminal_state.specs.StepResults.{StepResult, HasReply, latest, sets_ac};
ghost use Rattle.terminal_state.specs.Scripts.{templates_of_tag, has_few_scripts as few_test, kept_host_reply as kept_reply};
ghost use Rattle.terminal_state.specs.Terminal.{terminal_objects};

use crate::issuer_scripts::run_before;
use crate::second::begin_second;
use crate::stage::{AtSecond, OnlineOutcome, Trading};
use crate::transaction::Transaction;
use action_analysis::{codes_of, unable};
use auth_message::{Message, Reply as Said, read_reply};
use ber_tlv::{Cursor, append};
use emv_dict::{Ending, Kind, Settings, Step};
use env_map::Env;
use object_lists::CardData;
use online_step::{authenticate_command, read_verdict, request};
use terminal_state::state_so_far::kept;
use terminal_state::{HostReply, OnlineRequest, StateSoFar, Table, put_terminal};

/// The most script templates of a reply.
const MOST_TEMPLATES: usize = 8;

/// The issuer is asked, where the terminal can go online.
pub(crate) fn go_online<'s>(table: &mut Table<'s>, transaction: &Transaction<'_, 's>) -> Trading<'s>
    requires room { HasRoomForResults table.old 8 }
    requires last { IsSome table.old.state_so_far.last }
    ensures stands { (steps_done : List StepResult) (log : List Logged) (ac : AcData) → latest sets_ac None steps_done ≡ Some ac
        → BeginsAs table.old table.new (transaction_of transaction.now) result steps_done log (online (transaction_of transaction.now) ac steps_done log) }
    ensures step { StepComes table.old table.new result (4 + most_scripts) }
{
    if is_offline_only(transaction.settings) {
        return be_unable(table, transaction, OnlineRequest::NotSent);
    }
    put_objects(&mut table.objects, transaction, &table.state_so_far);
    write_online(
        &table.state_so_far,
        &table.objects,
        transaction,
        &mut table.message,
    );
    Trading::Online
}

/// A terminal without online capability (EMV 4.3 Book 4 Annex A1).
fn is_offline_only(settings: &Settings) -> bool
    ensures { result ≡ offline_test settings.now.kind }
{
    settings.kind == 23 || settings.kind == 26
}

/// Puts the terminal's objects, those that go into a request among them.
fn put_objects(env: &mut Env, transaction: &Transaction<'_, '_>, state_so_far: &StateSoFar)
    ensures objects { env.new ≡ terminal_objects (transaction_of transaction.now).outset transaction.now.row.now state_so_far.now }
    ensures request { HasTerminalData env.new }
{
    let settings = transaction.settings;
    let purchase = transaction.purchase;
    put_terminal(env, settings, purchase, transaction.row, state_so_far);
    has_length(settings.id);
    has_length(settings.country);
    has_length(purchase.currency);
    has_length(purchase.date);
    has_length(purchase.number);
}

/// An array has the length of its type.
fn has_length<const N: usize>(bytes: [u8; N])
    ensures { length bytes.entry ≡ N }
{
    let _bytes = bytes;
}

/// The request for the cryptogram that the card answered last.
fn write_online(
    state_so_far: &StateSoFar,
    objects: &Env,
    transaction: &Transaction<'_, '_>,
    out: &mut Message,
)
    requires last { IsSome state_so_far.now.last }
    requires objects { HasTerminalData objects.now }
    ensures exact { (ac : AcData) → state_so_far.now.last ≡ Some ac
        → out.new.items ≡ request_of transaction.now.card.now objects.now transaction.now.settings.now ac state_so_far.now.pin }
    ensures read { IsMessage out.new.items }
{
    let Some(ac) = state_so_far.last() else {
        unreachable!();
    };
    request(
        transaction.card,
        objects,
        transaction.settings,
        ac,
        state_so_far.pin(),
        out,
    );
}

/// The host's reply; one with a fault makes the terminal unable to go online.
pub(crate) fn on_reply<'s>(
    table: &mut Table<'s>,
    transaction: &Transaction<'_, 's>,
    reply: &[u8],
) -> Trading<'s>
    requires room { HasRoomForResults table.old 8 }
    ensures stands { TakesReply table.old table.new (transaction_of transaction.now) stage.Online result (HostSaid reply.now) }
    ensures step { StepComes table.old table.new result (3 + most_scripts) }
{
    match read_reply(reply) {
        Ok(said) => take_reply(table, transaction, said),
        Err(_) => be_unable(table, transaction, OnlineRequest::Sent),
    }
}

/// The host doesn't reply.
pub(crate) fn on_silence<'s>(
    table: &mut Table<'s>,
    transaction: &Transaction<'_, 's>,
) -> Trading<'s>
    requires room { HasRoomForResults table.old 8 }
    ensures stands { TakesReply table.old table.new (transaction_of transaction.now) stage.Online result HostSilent }
    ensures step { StepComes table.old table.new result (3 + most_scripts) }
{
    be_unable(table, transaction, OnlineRequest::Sent)
}

/// A reply that was read.
fn take_reply<'s>(
    table: &mut Table<'s>,
    transaction: &Transaction<'_, 's>,
    said: Said<'_>,
) -> Trading<'s>
    requires room { HasRoomForResults table.old 8 }
    requires sound { IsReplyInRange said }
    ensures stands { (steps_done : List StepResult) (log : List Logged) → BeginsAs table.old table.new (transaction_of transaction.now) result steps_done log (issuer_authentication (transaction_of transaction.now) (kept_reply said.entry) (HasReply said.entry ∷ steps_done) log) }
    ensures step { StepComes table.old table.new result (3 + most_scripts) }
{
    table.state_so_far.has_reply(&said);
    keep(&mut table.reply, &said);
    authenticate(table, transaction, said.auth)
}

/// Keeps a reply for the steps behind it.
fn keep(reply: &mut HostReply, said: &Said<'_>)
    requires { IsReplyInRange said.now }
    ensures kept { reply.new ≡ kept_reply said.now }
    ensures few { length (templates_of_tag 0x71 reply.new.scripts) + length (templates_of_tag 0x72 reply.new.scripts) ≤ 8 }
    ensures short { length reply.new.scripts ≤ most_scripts }
{
    reply.code = said.code;
    reply.issuer_data = kept(said.auth);
    reply.scripts.clear();
    if are_few(said.scripts) {
        append(&mut reply.scripts, said.scripts);
    }
}

/// Whether scripts are at most 8 objects.
fn are_few(scripts: &[u8]) -> bool
    ensures { result ≡ few_test (items_of scripts.now) }
{
    let mut cursor = Cursor::new(scripts);
    let mut count = 0;
    loop {
        match cursor.next() {
            Ok(Some(_)) => count += 1,
            Ok(None) => return count <= MOST_TEMPLATES,
            Err(_) => return false,
        }
    }
}

/// EXTERNAL AUTHENTICATE is asked where the reply has data for it and the card the function.
#[tactic(auto, unfolding(crate::specs::IssuerAuthentication::issuer_authentication))]
fn authenticate<'s>(
    table: &mut Table<'s>,
    transaction: &Transaction<'_, 's>,
    auth: Option<&[u8]>,
) -> Trading<'s>
    requires auth { IfSome auth (λ value. IsIssuerData value.now) }
    requires room { HasRoomForResults table.old (length (templates_of_tag 0x71 table.old.reply.scripts) + length (templates_of_tag 0x72 table.old.reply.scripts)) }
    ensures stands { (steps_done : List StepResult) (log : List Logged) → table.old.reply.auth ≡ option_map (λ value. value.now) auth.entry
        → BeginsAs table.old table.new (transaction_of transaction.now) result steps_done log (issuer_authentication (transaction_of transaction.now) table.old.reply steps_done log) }
    ensures step { StepComes table.old table.new result (3 + (bytes_in_templates (templates_of_tag 0x71 table.old.reply.scripts) + bytes_in_templates (templates_of_tag 0x72 table.old.reply.scripts))) }
{
    match auth {
        Some(value) => {
            if has_authentication(transaction.card) {
                authenticate_command(value, &mut table.command);
                Trading::Authenticate
            } else {
                run_before(table, transaction, 0)
            }
        }
        None => run_before(table, transaction, 0),
    }
}

/// Whether the card has issuer authentication (EMV 4.3 Book 3 Annex C1, b3 of the first byte).
fn has_authentication(card: &CardData) -> bool
    ensures { result ≡ authentication_test card.now }
{
    card.aip[0] & 0x04 != 0
}

/// The card's answer to EXTERNAL AUTHENTICATE.
pub(crate) fn on_authenticate<'s>(
    table: &mut Table<'s>,
    transaction: &Transaction<'_, 's>,
    reply: &[u8],
) -> Trading<'s>
    requires room { HasRoomForResults table.old (length (templates_of_tag 0x71 table.old.reply.scripts) + length (templates_of_tag 0x72 table.old.reply.scripts)) }
    ensures stands { TakesAnswer table.old table.new (transaction_of transaction.now) stage.Authenticate result reply.now }
    ensures step { StepComes table.old table.new result (2 + (bytes_in_templates (templates_of_tag 0x71 table.old.reply.scripts) + bytes_in_templates (templates_of_tag 0x72 table.old.reply.scripts))) }
{
    match read_verdict(reply) {
        Ok(good) => {
            table.state_so_far.has_authenticated(good);
            run_before(table, transaction, 0)
        }
        Err(cause) => Trading::Over(Ending::Terminated(Step::Authenticate, cause)),
    }
}

/// The terminal is unable to go online, behind a request or without one, and asks for the second cryptogram
/// at once.
fn be_unable<'s>(
    table: &mut Table<'s>,
    transaction: &Transaction<'_, 's>,
    request: OnlineRequest,
) -> Trading<'s>
    requires room { HasRoomForResults table.old 0 }
    ensures stands { (steps_done : List StepResult) (log : List Logged) → BeginsAs table.old table.new (transaction_of transaction.now) result steps_done log (unable_online (transaction_of transaction.now) request steps_done log) }
    ensures step { StepComes table.old table.new result 2 }
{
    let asked = kind_unable(&table.state_so_far, transaction);
    table.state_so_far.was_unable(request, asked);
    let outcome = OnlineOutcome::Unable;
    begin_second(table, transaction, AtSecond { asked, outcome })
}

/// The kind of cryptogram that is asked for where the terminal was unable to go online.
fn kind_unable(state_so_far: &StateSoFar, transaction: &Transaction<'_, '_>) -> Kind
    ensures { result ≡ spec.unable state_so_far.now.tvr (spec.codes_of transaction.now.card.now transaction.now.row.now) transaction.now.settings.now.kind }
{
    let codes = codes_of(transaction.card, transaction.row);
    let settings = transaction.settings;
    unable(state_so_far.tvr, &codes, settings.kind)
}
