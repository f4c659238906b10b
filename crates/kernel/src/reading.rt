//! Read application data (EMV 4.3 Book 3 section 10.2).
ghost use Rattle.std.specs.Prelude.{◌≡◌, ◌+◌, [], ℕ, List, length};
ghost use Rattle.emv_dict.specs.Progress.{Progress};
ghost use Rattle.emv_dict.specs.declared.ending.Step.TheVariants as step;
ghost use Rattle.emv_dict.specs.declared.purchase.Logged.{Logged};
ghost use Rattle.kernel.specs.StepsInTurn.{Standing, card_step, cut_off};
ghost use Rattle.kernel.specs.Dialogue.{restrictions};
ghost use Rattle.kernel.specs.Fits.{ReadFits, NextStands};
ghost use Rattle.kernel.specs.Rank.{rank_behind};
ghost use Rattle.kernel.specs.Reading.{next_at};
ghost use Rattle.kernel.specs.Reply.{Reply, CardSaid};
ghost use Rattle.kernel.specs.Stages.{OpeningStands};
ghost use Rattle.kernel.specs.Steps.{OpensAs, ReadsTo, TakesOn};
ghost use Rattle.kernel.specs.declared.stage.Opening.TheVariants as stage;
ghost use Rattle.object_lists.specs.CardRead.{ReadCard};
ghost use Rattle.object_lists.specs.Forms.{HasForms};
ghost use Rattle.read_records.specs.DataRead.{reading};
ghost use Rattle.read_records.specs.Leading.{CourseNextLeads, records_left_next};
ghost use Rattle.read_records.specs.Stepping.{next_with};
ghost use Rattle.terminal_state.specs.StepResults.{StepResult};
ghost use Rattle.terminal_state.specs.Table.{outset_of};

use crate::stage::{AtRead, Opening};
use emv_dict::AidRow;
use read_records::{CourseStep, RecordsToRead};
use terminal_state::Table;

/// The next record is asked for.
pub(crate) fn ask_record<'s>(
    table: &mut Table<'s>,
    row: &'s AidRow,
    course: RecordsToRead,
) -> Opening<'s>
    requires fits { ReadFits table.old row.now }
    ensures stands { (log : List Logged) (begun : List (List ℕ) → Progress ReadCard) (rest : List Reply → Standing StepResult)
        → ((later : List Reply) → rest later ≡ card_step (cut_off []) step.Read step.Read [] begun
        (λ card. restrictions (record { outset = outset_of table.old; row = row.entry.now; card = card })) log later)
        → ((later : List (List ℕ)) → begun later ≡ reading (record { entries = table.old.objects; left = course }) later)
        → OpeningStands table.new result log rest }
    ensures step { OpensAs table.old table.new result (1 + length course + rank_behind table.old) }
{
    course.ask(&mut table.command);
    Opening::Read(AtRead { course, row })
}

/// The card's answer to READ RECORD, taken where the course stands.
pub(crate) fn on_read<'s>(table: &mut Table<'s>, at: &mut AtRead<'s>, reply: &[u8]) -> CourseStep
    requires fits { ReadFits table.old at.old.row.now }
    ensures stands { (before now : List Logged) → TakesOn (OpeningStands table.old (stage.Read at.old) before) (NextStands table.new (next_at result at.new) now) (CardSaid reply.now now) }
    ensures step { ReadsTo table.old table.new (next_at result at.new) (length at.old.course + rank_behind table.old) }
{
    let next = at.course.go_on(&mut table.objects, reply);
    read_next(table, at, &next);
    next
}

/// How reading goes on behind an answer.
fn read_next<'s>(table: &mut Table<'s>, at: &AtRead<'s>, next: &CourseStep)
    requires fits { ReadFits table.old at.now.row.now }
    requires forms { next.now ≡ CourseStep.Done → HasForms table.old.objects }
    ensures stands { (log : List Logged) (course : List (List ℕ) → Progress ReadCard) (rest : List Reply → Standing StepResult)
        → ((later : List Reply) → rest later ≡ card_step (cut_off []) step.Read step.Read [] course
        (λ card. restrictions (record { outset = outset_of table.old; row = at.now.row.now; card = card })) log later)
        → CourseNextLeads table.old.objects course [] (next_with next.now at.now.course)
        → NextStands table.new (next_at next.now at.now) log rest }
    ensures step { ReadsTo table.old table.new (next_at next.now at.now) (1 + length (records_left_next (next_with next.now at.now.course)) + rank_behind table.old) }
{
    match next {
        CourseStep::Ask => at.course.ask(&mut table.command),
        CourseStep::Done => {}
        CourseStep::Ended(_) => {}
    }
}
