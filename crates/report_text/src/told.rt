//! What the types of a line's values say of them: bytes are bytes, and arrays are as long as they are.
ghost use Rattle.std.specs.Prelude.{◌≡◌, ⊤, length, IfSome};
ghost use Rattle.std.specs.List.{All};
ghost use Rattle.ber_tlv.specs.Item.{AreBytes};
ghost use Rattle.report_text.specs.Told.{IsEndingTold, IsResult, ArePartsTold, HasLineBytes};

use crate::head::Head;
use crate::{EndParts, LineAt, Lines};
use emv_dict::{Cause, Ending};

/// Bytes are below 256.
fn bytes_fit(bytes: &[u8])
    ensures { AreBytes bytes.now }
{
    let _count = bytes.len();
}

/// An array has the length of its type.
fn has_length<const N: usize>(bytes: [u8; N])
    ensures { length bytes.entry ≡ N }
{
    let _bytes = bytes;
}

/// A response code has two characters.
fn code_fits(code: Option<[u8; 2]>)
    ensures { IfSome code (λ code. length code ≡ 2) }
{
    match code {
        Some(characters) => has_length(characters),
        None => {}
    }
}

/// A cryptogram is of bytes.
fn last_fits(last: &Option<(u16, [u8; 8])>)
    ensures { IfSome last.now (λ last. AreBytes last.1) }
{
    match last {
        Some(given) => bytes_fit(&given.1),
        None => {}
    }
}

/// The results of scripts have five bytes each.
fn results_fit(results: &[[u8; 5]])
    ensures { All IsResult results.now }
{
    for result in results {
        bytes_fit(result);
        has_length(*result);
    }
}

/// What a cause names is a byte.
fn ending_fits(ending: Ending)
    ensures { IsEndingTold ending }
{
    match ending {
        Ending::Terminated(_, Cause::Kind(information)) => bytes_fit(&[information]),
        _ => {}
    }
}

fn parts_fit(parts: &EndParts)
    ensures { ArePartsTold parts.now }
{
    ending_fits(parts.ending);
    bytes_fit(&parts.cvm);
    code_fits(parts.arc);
    last_fits(&parts.atc_ac);
    results_fit(parts.scripts.as_slice());
}

impl<'a> LineAt<'a> {
    /// The line's bytes are bytes.
    fn fits(&self)
        ensures { HasLineBytes self.now }
    {
        match self.head {
            Head::End { parts, .. } => parts_fit(parts),
            _ => bytes_fit(self.bytes),
        }
    }
}

impl Lines {
    /// The bytes of each line are bytes.
    pub fn fit(&self)
        ensures { All HasLineBytes self.now.items }
    {
        let mut left = self.left();
        while let Some(line) = left.next() {
            line.fits();
        }
    }
}
