//! A card's payment system directory and the terminal's list of AIDs find the same applications: a law over what
//! the card, the directory and the list are defined to do.
ghost use Rattle.dialogue_laws.specs.Agreeing.{DirectoryAgrees};
ghost use Rattle.dialogue_laws.specs.ListCourse.{ListOpens};

/// On a card that has a directory, of whose applications no name begins another's, and where neither the card nor an
/// application is blocked: by reading the directory and by selecting its own AIDs, none of which is the directory's
/// name, a terminal comes to the same candidates. Each name of the ones is a name of the others, by the same AID and
/// with the same priority. Where no two stand at one place in the order of priority, their order is the same
/// (`agrees`). The list's candidates are those to which selection by the list puts its final SELECTs (`opens`).
pub fn both_agree()
    ensures agrees { DirectoryAgrees }
    ensures opens { ListOpens }
{}
