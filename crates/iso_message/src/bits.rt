//! The bitmaps of the messages.
ghost use Rattle.std.specs.Prelude.{◌≡◌};
ghost use Rattle.iso_message.specs.Layout.{bitmap, request_numbers, present_numbers, reversal_numbers, reply_numbers};

/// That of a request, with the block of a PIN or without it.
#[tactic(auto, unfolding(crate::specs::Layout::bitmap))]
pub fn request_bits(pin: bool) -> [u8; 8]
    ensures { result ≡ bitmap (request_numbers pin) }
{
    if pin {
        [0x70, 0x20, 0x00, 0x00, 0x08, 0x80, 0x92, 0x00]
    } else {
        [0x70, 0x20, 0x00, 0x00, 0x08, 0x80, 0x82, 0x00]
    }
}

/// That of a presentment.
#[tactic(auto, unfolding(crate::specs::Layout::bitmap))]
pub fn present_bits() -> [u8; 8]
    ensures { result ≡ bitmap present_numbers }
{
    [0x70, 0x20, 0x00, 0x00, 0x0A, 0x80, 0x82, 0x00]
}

/// That of a reversal.
#[tactic(auto, unfolding(crate::specs::Layout::bitmap))]
pub fn reversal_bits() -> [u8; 8]
    ensures { result ≡ bitmap reversal_numbers }
{
    [0x50, 0x20, 0x00, 0x00, 0x0A, 0x80, 0x82, 0x00]
}

/// That of a reply.
#[tactic(auto, unfolding(crate::specs::Layout::bitmap))]
pub fn reply_bits() -> [u8; 8]
    ensures { result ≡ bitmap reply_numbers }
{
    [0x00, 0x00, 0x00, 0x00, 0x02, 0x00, 0x02, 0x00]
}
