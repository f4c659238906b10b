use ber_tlv::Tag;

/// Why bytes are no message: the first fault, those of the coding first, then field by field.
#[derive(Clone, Copy, PartialEq, Eq, Debug)]
pub enum MessageFault {
    /// The item at this place, from 0, is no data object or stands where none of the message does. Of
    /// several places where no data object stands, outside the outer item and directly in it, it is the least.
    Coding(usize),
    /// The field of this tag is not there.
    Missing(Tag),
    /// The field of this tag has another length than it may have, or a digit that is none.
    Value(Tag),
}
