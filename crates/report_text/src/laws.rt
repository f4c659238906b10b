//! Reports tell what happened: laws over the texts of all lines that runs make, each by itself and in a row, and over what
//! their reader takes from them.
ghost use Rattle.report_text.specs.LineTexts.{LinesDiffer, ReportsDiffer};
ghost use Rattle.report_text.specs.LinesRead.{LinesAreRead};

/// Two lines of one text are of one kind and show the same: names, bytes and characters are equal, and numbers have
/// the same digits, or the same bytes where the text has bytes. What such lines keep to is the premise, and no more
/// than the law needs: bytes are bytes, a response code has two characters and the result of a script five bytes, and
/// a card's name has no blank and no character before it.
pub fn lines_differ()
    ensures { LinesDiffer }
{}

/// And two reports of one text have as many lines, which show the same one by one: each text has its lines one behind
/// the other, and where each of them ends is read from the text alone.
pub fn reports_differ()
    ensures { ReportsDiffer }
{}

/// What is read from the text of a line, up to its newline, is that very line, of each kind: whose it is and what it tells,
/// with bytes in hexadecimal; and no other newline stands in it. Only the line that a card's data was read to its end is none for its reader. The premise is
/// what such lines keep to, and besides a lane from 0 to 15, a purchase's number of 32 bits, a name of 1 to 16 characters for
/// a card that is powered up, and no blank in a response code and no character before it.
pub fn lines_are_read()
    ensures { LinesAreRead }
{}
