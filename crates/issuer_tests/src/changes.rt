//! A message with other bytes.
use auth_message::Message;

/// The message with more bytes behind it, and with other bytes at these places.
pub(crate) fn changed(message: &[u8], changes: &[(usize, u8)], more: &[u8]) -> Message {
    let mut bytes = Message::new();
    for part in [message, more] {
        for byte in part {
            let _ = bytes.try_push(*byte);
        }
    }
    for (place, byte) in changes {
        if *place < bytes.len() {
            bytes[*place] = *byte;
        }
    }
    bytes
}
