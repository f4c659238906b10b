//! A law on what a card tells of its cryptograms.
ghost use Rattle.card_app.specs.Explained.{ReasonsExplain};
ghost use Rattle.card_files.specs.Views.{ImageData};

/// Where a card tells why it makes a cryptogram, the kind told is the one in its answer, which has the status 9000; and an
/// approval that is asked for is given exactly where each test told holds.
pub fn reasons_explain()
    ensures { (image : ImageData) → ReasonsExplain image }
{}
