//! What holds of risk management, whatever the card says.
ghost use Rattle.risk_mgmt.specs.Laws.{RiskBitsAreOwn};

/// No bit of another step stands in what risk management finds (EMV 4.3 Book 3 section 10.6 and Annex C5).
pub fn bits_are_own()
    ensures { RiskBitsAreOwn }
{}
