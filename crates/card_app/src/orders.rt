//! What the issuer's orders do to an application (EMV 4.3 Book 3 sections 6.5.1 to 6.5.3 and 6.5.10).
ghost use Rattle.std.specs.Prelude.{◌≡◌, ◌≤◌, length, take, IfSome, Some, IsTrue};
ghost use Rattle.card_cryptogram.specs.ScriptHeaders.{size_of as size_wanted};
ghost use Rattle.card_app.specs.ScriptCommands as spec;

use card_cryptogram::{First, ScriptCommand, block_in, limit_to};
use card_files::AppImage;
use card_files::rules::is_plain_block;
use card_state::Scripted;

/// The new PIN, where the block is one.
fn change_to(limit: u8, block: [u8; 8]) -> Option<Scripted>
    ensures { result ≡ spec.change_to limit block }
{
    if is_plain_block(block) {
        Some(Scripted::PinChange { pin: block, limit })
    } else {
        None
    }
}

/// What an order does, where its data allow it.
pub(crate) fn scripted_of(
    order: ScriptCommand,
    app: &AppImage,
    first: &First,
    body: &[u8],
) -> Option<Scripted>
    requires { length body.now ≡ size_wanted order }
    ensures { result ≡ spec.scripted_of order app.now first.now body.now }
{
    match order {
        ScriptCommand::BlockApp => Some(Scripted::Block),
        ScriptCommand::UnblockApp => Some(Scripted::Unblock),
        ScriptCommand::BlockCard => Some(Scripted::CardBlock),
        ScriptCommand::UnblockPin => Some(Scripted::PinUnblock { limit: app.tries }),
        ScriptCommand::ChangePin => change_to(
            app.tries,
            block_in(&app.enc_key, first.cryptogram, body),
        ),
        ScriptCommand::LimitCount => Some(Scripted::Count(body[0])),
        ScriptCommand::LimitSum => limit_to(body),
    }
}
