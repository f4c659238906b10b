//! The card by value while it is on, for who hands it from call to call: each call takes it and gives it back, or
//! behind a loss of power its pages. The work is that of `Icc`.
ghost use Rattle.std.specs.Prelude.{◌≡◌, ℕ, List, [], Bool, Option, true, false, IfOk, IfErr, OnOk, OnErr};
ghost use Rattle.card_files.specs.Files.{opening_of};
ghost use Rattle.card_state.specs.Decisions.{Decided};
ghost use Rattle.card_state.specs.Totals.{totals as totals_of};
ghost use Rattle.emv_ports.specs.Cut.{names_commit};
ghost use Rattle.emv_ports.specs.Memory.{powered_off};
ghost use Rattle.emv_ports.specs.declared.tear.Tear.{Tear};
ghost use Rattle.torn_store.specs.Store.{HasLostPower};
ghost use Rattle.torn_store.specs.Writing.{LostAt};
ghost use Rattle.card_app.specs.Pages.{StandsFor, found_of};
ghost use Rattle.card_app.specs.SeenCard.{CardOn, AnswersCard, CutsCard, AllowsCard, MayBeCard};
ghost use Rattle.card_app.specs.Session.{Exchange};

use crate::icc::Icc;
use apdu_core::Answer;
use card_files::Image;
use card_state::CardState;
use emv_ports::{Gone, Pages};
use std::marker::Model;
use torn_store::Lost;

/// A card that is on: the image of its applications, its pages with their state, and how far it has
/// come since power-up. Contracts see these three. A call takes the card and gives it back; `Icc` is
/// changed in its place.
#[derive(Drop)]
pub struct Card<'i, P: Pages> {
    icc: Icc<'i, P>,
}

impl<'i, P: Pages> Model for Card<'i, P> {
    ghost use Rattle.std.specs.Prelude.{◌≡◌, true};
    ghost use Rattle.card_app.specs.SeenCard.{CardSeen};

    ghost Value = { CardSeen };

    ghost view = { λ c. c.icc };

    ghost invariant = { λ c. c.icc.kept.memory.on ≡ true };
}

impl<'i, P: Pages> Card<'i, P> {
    /// Turns on a card of this image. The pages are off, and may stand for decisions of a card of this
    /// image, as `personalise` and every later call leave them. What is found is the list of decisions
    /// that are kept, or that list with the pending one; the card is at the start of a session.
    ///
    /// `Lost` comes exactly where a tear is planned before the first decision. The pages stand then for
    /// what they stood for.
    pub fn power_up(image: &'i Image, pages: P) -> Result<Card<'i, P>, Lost<P>>
        requires off { (P.memory pages).on ≡ false }
        requires stands { (kept : List Decided) × (pending : Option Decided) × MayBeCard image.now (P.memory pages) kept pending }

        ensures found { IfOk result (λ card. (kept : List Decided) (pending : Option Decided) → MayBeCard image.now (P.memory pages) kept pending
            → (with_it : Bool) × CardOn card [] (found_of kept pending with_it) (P.memory pages).plan 0) }
        ensures image { IfOk result (λ card. card.image ≡ image.now) }
        ensures spared { OnOk result (names_commit (P.memory pages).plan 0 ≡ false) }
        ensures losses { IfOk result (λ card. card.kept.memory.losses ≡ (P.memory pages).losses) }

        ensures lost { IfErr result (λ lost. (kept : List Decided) (pending : Option Decided) → MayBeCard image.now (P.memory pages) kept pending
            → MayBeCard image.now (P.memory lost.pages) kept pending) }
        ensures gone { IfErr result (λ lost. LostAt (P.memory pages) (P.memory lost.pages)) }
    {
        let mut icc = Icc::of_pages(image, pages);
        match icc.turn_on() {
            Ok(()) => Ok(Card { icc }),
            Err(Gone) => Err(cut_off(icc)),
        }
    }

    /// Answers a command: any bytes have an answer, which replaces what `out` held. The decisions for
    /// it are stored before the answer is given.
    ///
    /// `Lost` comes exactly where the plan cuts one of these decisions. The decisions before it are kept
    /// then, the cut one is dropped where the plan cuts its first write before it begins, kept at the
    /// release, and pending at any other place; `out` is empty.
    pub fn process(self, command: &[u8], out: &mut Answer) -> Result<Card<'i, P>, Lost<P>>
        ensures answered { IfOk result (λ card. AnswersCard self.entry card command.now out.new.items) }
        ensures image { IfOk result (λ card. card.image ≡ self.entry.image) }
        ensures losses { IfOk result (λ card. card.kept.memory.losses ≡ self.entry.kept.memory.losses) }

        ensures cut { IfErr result (λ lost. CutsCard self.entry (P.memory lost.pages) command.now) }
        ensures gone { IfErr result (λ lost. HasLostPower self.entry.kept.memory (P.memory lost.pages)) }
        ensures silent { OnErr result (out.new.items ≡ []) }

        // A list of allowed decisions stays one, whether the command is answered or cut off.
        ensures allowed { AllowsCard self.entry command.now }
    {
        let Card { mut icc } = self;
        match icc.carry_on(command, out) {
            Ok(()) => Ok(Card { icc }),
            Err(Gone) => Err(cut_off(icc)),
        }
    }

    /// The state of the card: the totals of its decisions.
    pub fn totals(&self) -> &CardState
        ensures state { result.now ≡ self.now.kept.state }
        ensures totals { (session : List Exchange) (ds : List Decided) (plan : Option Tear) (made : ℕ)
            → CardOn self.now session ds plan made → result.now ≡ totals_of (opening_of self.now.image) ds }
    {
        self.icc.totals()
    }

    /// Turns the card off. The pages stand for its decisions.
    pub fn power_off(self) -> P
        ensures memory { P.memory result ≡ powered_off self.entry.kept.memory }
        ensures stands { (session : List Exchange) (ds : List Decided) (plan : Option Tear) (made : ℕ)
            → CardOn self.entry session ds plan made
            → StandsFor (P.memory result).cells self.entry.image.version (opening_of self.entry.image) ds }
    {
        let Card { mut icc } = self;
        icc.power_off();
        icc.off_pages()
    }
}

/// The pages of a card, behind a loss of power.
fn cut_off<P: Pages>(icc: Icc<'_, P>) -> Lost<P>
    ensures { P.memory result.pages ≡ icc.entry.kept.memory }
{
    Lost {
        pages: icc.off_pages(),
    }
}
