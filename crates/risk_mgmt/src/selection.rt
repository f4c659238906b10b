ghost use Rattle.std.specs.Prelude.{◌≡◌, ◌≤◌, ◌<◌, ℕ, IsTrue};
ghost use Rattle.emv_dict.specs.Settings.{IsAidRow};
ghost use Rattle.risk_mgmt.specs.Selected.{is_selected as selects, with_targets};

use emv_dict::AidRow;

/// Whether random transaction selection (EMV 4.3 Book 3 section 10.6.2) takes a purchase of this
/// amount, below the floor limit, with this random word.
pub fn is_selected(row: &AidRow, amount: u64, word: u32) -> bool
    requires row { IsAidRow row.now }
    requires below { amount < row.now.floor }
    ensures exact { result ≡ selects row.now amount word }
    // With a higher target or a higher greatest target it takes the purchase too.
    ensures rising { (target most : ℕ) → row.now.target ≤ target → row.now.max_target ≤ most → target ≤ most
        → IsTrue result → IsTrue (selects (with_targets row.now target most) amount word) }
{
    takes(row, amount, word)
}

/// The same, by the definition alone.
fn takes(row: &AidRow, amount: u64, word: u32) -> bool
    requires row { IsAidRow row.now }
    requires below { amount < row.now.floor }
    ensures { result ≡ selects row.now amount word }
{
    let drawn = u64::from(word % 99) + 1;
    let target = u64::from(row.target);
    if amount < row.threshold {
        return drawn <= target;
    }
    let width = row.floor - row.threshold;
    let rise = u64::from(row.max_target - row.target) * (amount - row.threshold);
    drawn * width <= rise + target * width
}
