//! The teller of a report's lines.
ghost use Rattle.std.specs.Prelude.{◌≡◌, OnOk, IfOk};
ghost use Rattle.narrator.specs.State as state;
ghost use Rattle.narrator.specs.State.{seen_state};
ghost use Rattle.narrator.specs.Filters.{shows_all};
ghost use Rattle.narrator.specs.Words as spec;
ghost use Rattle.narrator.specs.Words.{Narrates, is_text_left};
ghost use Rattle.report_lines.specs.Reading.{seen_line};
ghost use Rattle.report_lines.specs.Lines.{AreWordLines};

use crate::{Basis, Filter, ReportPast, Terminal};
use issuer_reasons::Account;
use purchase_reasons::CardApp;
use report_lines::{ReportLine, WordLines, read_line};
use std::alloc::{AllocError, Global};

/// Tells the lines of a report one by one.
#[derive(Drop)]
pub struct Narrator {
    basis: Basis,
    past: ReportPast,
}

impl Narrator {
    /// A teller before the first line of a report, with what is known of the terminals, the cards
    /// and the accounts.
    pub fn new(
        alloc: Global,
        filter: Filter,
        terminals: Vec<Terminal>,
        card_apps: Vec<CardApp>,
        accounts: Vec<Account>,
    ) -> Result<Narrator, AllocError>
        ensures state { IfOk result (λ n. seen_state n ≡ state.start) }
        ensures filter { IfOk result (λ n. n.basis.filter ≡ filter) }
        ensures terminals { IfOk result (λ n. n.basis.terminals.items ≡ terminals.items) }
        ensures cards { IfOk result (λ n. n.basis.card_apps.items ≡ card_apps.items) }
        ensures accounts { IfOk result (λ n. n.basis.accounts.items ≡ accounts.items) }
    {
        let past = ReportPast::new(alloc)?;
        let basis = Basis {
            alloc,
            filter,
            terminals,
            card_apps,
            accounts,
        };
        Ok(Narrator { basis, past })
    }

    /// Whether a line is left by the filter.
    fn shows(&self, line: &ReportLine<'_>) -> bool
        ensures { result ≡ spec.is_left self.now.basis.filter (seen_state self.now) (seen_line line.now) }
    {
        let last_end = self.past.last_end(&line.whose);
        self.basis.filter.shows(line, last_end)
    }

    /// Whether every line is left by the filter.
    pub fn shows_all(&self) -> bool
        ensures { result ≡ shows_all self.now.basis.filter }
    {
        self.basis.filter.shows_all()
    }

    /// Puts the words of a line, which stands without its newline, in place of what `out` held, and keeps
    /// what the line leaves for the lines behind it. Whether the filter leaves the line. An error says that
    /// there was no memory.
    #[tactic(auto, unfolding(crate::specs::Words::Narrates, crate::specs::Words::is_text_left))]
    pub fn tell(&mut self, text: &[u8], out: &mut WordLines) -> Result<bool, AllocError>
        ensures lines { OnOk result (AreWordLines out.new.made.bytes) }
        ensures shown { IfOk result (λ shown. shown ≡ is_text_left self.old.basis.filter (seen_state self.old) text.now) }
        ensures told { OnOk result (Narrates (state.manner_of self.old) text.now (seen_state self.old) out.new.made.bytes (seen_state self.new)) }
        ensures manner { state.manner_of self.new ≡ state.manner_of self.old }
    {
        out.clear(self.basis.filter.books);
        match read_line(text) {
            Some(line) => {
                let shown = self.shows(&line);
                self.past.tell_line(&self.basis, &line, out)?;
                out.finish()?;
                Ok(shown)
            }
            None => {
                out.finish()?;
                Ok(self.basis.filter.shows_all())
            }
        }
    }
}
