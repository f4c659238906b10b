/// Why bytes are no message of this style: the first fault in the order of the bytes. Places count from 0.
#[derive(Clone, Copy, PartialEq, Eq, Debug)]
pub enum IsoFault {
    /// The bytes end within the part that begins at this place: the type, the bitmap or a field.
    Short(usize),
    /// The type is none of those that the call reads.
    WrongType,
    /// The bitmap names other fields than the message has.
    Bitmap,
    /// The content of the field of this number is against the table. A field 11 or 37 that doesn't agree
    /// with the counter 9F36 is such a fault, which is looked for behind field 55.
    Field(u8),
    /// Bytes stand behind the last field, from this place on.
    Rest(usize),
}
