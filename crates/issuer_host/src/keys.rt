use triple_des::Key16;

/// An issuer's keys, each for two-key triple DES. The first three are master keys, from which each
/// card's own keys are derived (EMV 4.3 Book 2 Annex A1.4).
#[derive(Drop)]
pub struct HostKeys {
    /// For application cryptograms.
    pub ac: Key16,
    /// For the message authentication codes of script commands.
    pub mac: Key16,
    /// For the enciphered data of script commands.
    pub enc: Key16,
    /// For the PINs that terminals send.
    pub pin: Key16,
}
