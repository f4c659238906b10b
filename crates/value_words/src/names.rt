//! The names of data objects and how their values are told (EMV 4.3 Book 3 Annexes A and B, Book 1
//! Annex B).

/// How a value is told in words.
#[derive(Clone, Copy, PartialEq, Eq, Debug)]
pub enum Form {
    /// In hexadecimal.
    Bytes,
    /// Its characters.
    Text,
    /// The objects that it holds.
    Template,
    /// Its decimal digits, without the filler F.
    Digits,
    /// A number.
    Number,
    /// Twelve digits without leading zeros.
    Amount,
    /// The three digits of a country or of a currency.
    Code,
    /// Year, month and day.
    Date,
    /// Hour, minute and second.
    Time,
    /// The entries of a data object list.
    ObjectList,
    /// The bits that are set.
    Bits,
    /// Application interchange profile.
    Interchange,
    /// Application usage control.
    Usage,
    /// Terminal capabilities.
    Capabilities,
    /// Additional terminal capabilities.
    Additional,
    /// Transaction status information.
    Status,
    /// Terminal verification results.
    Results,
    /// Application file locator.
    Locator,
    /// The rules of cardholder verification.
    Methods,
    /// The result of cardholder verification.
    MethodResult,
    /// Cryptogram information data.
    Information,
    /// Issuer application data.
    IssuerData,
    /// Issuer authentication data.
    Authentication,
    /// Authorisation response code.
    Response,
    /// Application priority indicator.
    Priority,
    /// A command of an issuer script.
    Command,
    /// The file and the length of a log of transactions.
    LogEntry,
    /// Track 2 equivalent data.
    Track,
    /// Terminal type.
    TerminalType,
    /// Transaction type.
    Trade,
}

/// The data objects that have a name: the tag, as the big-endian number of its bytes, the name, and how
/// the value is told.
pub const NAMES: [(u32, &[u8], Form); 126] = [
    (0x42, b"Issuer Identification Number (IIN)", Form::Digits),
    (0x4f, b"Application Dedicated File (ADF) Name", Form::Bytes),
    (0x50, b"Application Label", Form::Text),
    (0x57, b"Track 2 Equivalent Data", Form::Track),
    (
        0x5a,
        b"Application Primary Account Number (PAN)",
        Form::Digits,
    ),
    (0x61, b"Application Template", Form::Template),
    (
        0x6f,
        b"File Control Information (FCI) Template",
        Form::Template,
    ),
    (
        0x70,
        b"READ RECORD Response Message Template",
        Form::Template,
    ),
    (0x71, b"Issuer Script Template 1", Form::Template),
    (0x72, b"Issuer Script Template 2", Form::Template),
    (0x73, b"Directory Discretionary Template", Form::Template),
    (0x77, b"Response Message Template Format 2", Form::Template),
    (0x80, b"Response Message Template Format 1", Form::Bytes),
    (0x81, b"Amount, Authorised (Binary)", Form::Number),
    (0x82, b"Application Interchange Profile", Form::Interchange),
    (0x83, b"Command Template", Form::Bytes),
    (0x84, b"Dedicated File (DF) Name", Form::Bytes),
    (0x86, b"Issuer Script Command", Form::Command),
    (0x87, b"Application Priority Indicator", Form::Priority),
    (0x88, b"Short File Identifier (SFI)", Form::Number),
    (0x89, b"Authorisation Code", Form::Text),
    (0x8a, b"Authorisation Response Code", Form::Response),
    (
        0x8c,
        b"Card Risk Management Data Object List 1 (CDOL1)",
        Form::ObjectList,
    ),
    (
        0x8d,
        b"Card Risk Management Data Object List 2 (CDOL2)",
        Form::ObjectList,
    ),
    (
        0x8e,
        b"Cardholder Verification Method (CVM) List",
        Form::Methods,
    ),
    (
        0x8f,
        b"Certification Authority Public Key Index, card",
        Form::Bytes,
    ),
    (0x90, b"Issuer Public Key Certificate", Form::Bytes),
    (0x91, b"Issuer Authentication Data", Form::Authentication),
    (0x92, b"Issuer Public Key Remainder", Form::Bytes),
    (0x93, b"Signed Static Application Data", Form::Bytes),
    (0x94, b"Application File Locator (AFL)", Form::Locator),
    (0x95, b"Terminal Verification Results", Form::Results),
    (
        0x97,
        b"Transaction Certificate Data Object List (TDOL)",
        Form::ObjectList,
    ),
    (
        0x98,
        b"Transaction Certificate (TC) Hash Value",
        Form::Bytes,
    ),
    (
        0x99,
        b"Transaction Personal Identification Number (PIN) Data",
        Form::Bytes,
    ),
    (0x9a, b"Transaction Date", Form::Date),
    (0x9b, b"Transaction Status Information", Form::Status),
    (0x9c, b"Transaction Type", Form::Trade),
    (0x9d, b"Directory Definition File (DDF) Name", Form::Bytes),
    (
        0xa5,
        b"File Control Information (FCI) Proprietary Template",
        Form::Template,
    ),
    (0xe1, b"request", Form::Template),
    (0xe2, b"reply", Form::Template),
    (0xe3, b"presentment", Form::Template),
    (0xe4, b"reversal", Form::Template),
    (0x5f20, b"Cardholder Name", Form::Text),
    (0x5f24, b"Application Expiration Date", Form::Date),
    (0x5f25, b"Application Effective Date", Form::Date),
    (0x5f28, b"Issuer Country Code", Form::Code),
    (0x5f2a, b"Transaction Currency Code", Form::Code),
    (0x5f2d, b"Language Preference", Form::Text),
    (0x5f30, b"Service Code", Form::Digits),
    (
        0x5f34,
        b"Application Primary Account Number (PAN) Sequence Number",
        Form::Digits,
    ),
    (0x5f36, b"Transaction Currency Exponent", Form::Digits),
    (0x5f50, b"Issuer URL", Form::Text),
    (
        0x5f53,
        b"International Bank Account Number (IBAN)",
        Form::Text,
    ),
    (0x5f54, b"Bank Identifier Code (BIC)", Form::Text),
    (0x5f55, b"Issuer Country Code (alpha2 format)", Form::Text),
    (0x5f56, b"Issuer Country Code (alpha3 format)", Form::Text),
    (0x5f57, b"Account Type", Form::Digits),
    (0x9f01, b"Acquirer Identifier", Form::Digits),
    (0x9f02, b"Amount, Authorised (Numeric)", Form::Amount),
    (0x9f03, b"Amount, Other (Numeric)", Form::Amount),
    (0x9f04, b"Amount, Other (Binary)", Form::Number),
    (0x9f05, b"Application Discretionary Data", Form::Bytes),
    (
        0x9f06,
        b"Application Identifier (AID), terminal",
        Form::Bytes,
    ),
    (0x9f07, b"Application Usage Control", Form::Usage),
    (0x9f08, b"Application Version Number, card", Form::Bytes),
    (0x9f09, b"Application Version Number, terminal", Form::Bytes),
    (0x9f0b, b"Cardholder Name Extended", Form::Text),
    (0x9f0d, b"Issuer Action Code, Default", Form::Bits),
    (0x9f0e, b"Issuer Action Code, Denial", Form::Bits),
    (0x9f0f, b"Issuer Action Code, Online", Form::Bits),
    (0x9f10, b"Issuer Application Data", Form::IssuerData),
    (0x9f11, b"Issuer Code Table Index", Form::Digits),
    (0x9f12, b"Application Preferred Name", Form::Text),
    (
        0x9f13,
        b"Last Online Application Transaction Counter (ATC) Register",
        Form::Number,
    ),
    (0x9f14, b"Lower Consecutive Offline Limit", Form::Number),
    (0x9f15, b"Merchant Category Code", Form::Digits),
    (0x9f16, b"Merchant Identifier", Form::Text),
    (
        0x9f17,
        b"Personal Identification Number (PIN) Try Counter",
        Form::Number,
    ),
    (0x9f18, b"Issuer Script Identifier", Form::Bytes),
    (0x9f1a, b"Terminal Country Code", Form::Code),
    (0x9f1b, b"Terminal Floor Limit", Form::Number),
    (0x9f1c, b"Terminal Identification", Form::Text),
    (0x9f1d, b"Terminal Risk Management Data", Form::Bytes),
    (0x9f1e, b"Interface Device (IFD) Serial Number", Form::Text),
    (0x9f1f, b"Track 1 Discretionary Data", Form::Text),
    (0x9f20, b"Track 2 Discretionary Data", Form::Digits),
    (0x9f21, b"Transaction Time", Form::Time),
    (
        0x9f22,
        b"Certification Authority Public Key Index, terminal",
        Form::Bytes,
    ),
    (0x9f23, b"Upper Consecutive Offline Limit", Form::Number),
    (0x9f26, b"Application Cryptogram", Form::Bytes),
    (0x9f27, b"Cryptogram Information Data", Form::Information),
    (
        0x9f2d,
        b"Integrated Circuit Card (ICC) PIN Encipherment Public Key Certificate",
        Form::Bytes,
    ),
    (
        0x9f2e,
        b"Integrated Circuit Card (ICC) PIN Encipherment Public Key Exponent",
        Form::Bytes,
    ),
    (
        0x9f2f,
        b"Integrated Circuit Card (ICC) PIN Encipherment Public Key Remainder",
        Form::Bytes,
    ),
    (0x9f32, b"Issuer Public Key Exponent", Form::Bytes),
    (0x9f33, b"Terminal Capabilities", Form::Capabilities),
    (
        0x9f34,
        b"Cardholder Verification Method (CVM) Results",
        Form::MethodResult,
    ),
    (0x9f35, b"Terminal Type", Form::TerminalType),
    (
        0x9f36,
        b"Application Transaction Counter (ATC)",
        Form::Number,
    ),
    (0x9f37, b"Unpredictable Number", Form::Bytes),
    (
        0x9f38,
        b"Processing Options Data Object List (PDOL)",
        Form::ObjectList,
    ),
    (0x9f39, b"Point-of-Service (POS) Entry Mode", Form::Digits),
    (0x9f3a, b"Amount, Reference Currency", Form::Number),
    (0x9f3b, b"Application Reference Currency", Form::Digits),
    (0x9f3c, b"Transaction Reference Currency Code", Form::Code),
    (
        0x9f3d,
        b"Transaction Reference Currency Exponent",
        Form::Digits,
    ),
    (
        0x9f40,
        b"Additional Terminal Capabilities",
        Form::Additional,
    ),
    (0x9f41, b"Transaction Sequence Counter", Form::Digits),
    (0x9f42, b"Application Currency Code", Form::Code),
    (
        0x9f43,
        b"Application Reference Currency Exponent",
        Form::Digits,
    ),
    (0x9f44, b"Application Currency Exponent", Form::Digits),
    (0x9f45, b"Data Authentication Code", Form::Bytes),
    (
        0x9f46,
        b"Integrated Circuit Card (ICC) Public Key Certificate",
        Form::Bytes,
    ),
    (
        0x9f47,
        b"Integrated Circuit Card (ICC) Public Key Exponent",
        Form::Bytes,
    ),
    (
        0x9f48,
        b"Integrated Circuit Card (ICC) Public Key Remainder",
        Form::Bytes,
    ),
    (
        0x9f49,
        b"Dynamic Data Authentication Data Object List (DDOL)",
        Form::ObjectList,
    ),
    (0x9f4a, b"Static Data Authentication Tag List", Form::Bytes),
    (0x9f4b, b"Signed Dynamic Application Data", Form::Bytes),
    (0x9f4c, b"ICC Dynamic Number", Form::Bytes),
    (0x9f4d, b"Log Entry", Form::LogEntry),
    (0x9f4e, b"Merchant Name and Location", Form::Text),
    (0x9f4f, b"Log Format", Form::ObjectList),
    (
        0xbf0c,
        b"File Control Information (FCI) Issuer Discretionary Data",
        Form::Template,
    ),
    (0xdf11, b"enciphered PIN block", Form::Bytes),
];
