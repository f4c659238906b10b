//! The words with which a program is begun.
ghost use Rattle.std.specs.Prelude.{◌≡◌, ◌⊎◌, IfErr};
ghost use Rattle.line_talk.specs.declared.status.Status.TheVariants as status;

use crate::status::Status;
use std::env::{self, Env};
use std::io::ErrorKind;

/// The status of a program whose words can't be had: there was no memory for them, or one is no text.
fn status_without(kind: ErrorKind) -> Status
    ensures { (result ≡ status.OutOfMemory) ⊎ (result ≡ status.Unserved) }
{
    if kind == ErrorKind::OutOfMemory {
        Status::OutOfMemory
    } else {
        Status::Unserved
    }
}

/// The words behind the program's name, or the status that it ends with: 5 where there is no memory for them, 2 where one is
/// no text.
pub fn given_words<R: Env + AllocGlobal>(rt: &R) -> Result<Vec<String>, Status>
    ensures { IfErr result (λ ended. (ended ≡ status.OutOfMemory) ⊎ (ended ≡ status.Unserved)) }
{
    let mut words = Vec::new(rt.alloc());
    match env::args(rt) {
        Ok(given) => {
            for word in given.skip(1) {
                if words.push(word).is_err() {
                    return Err(Status::OutOfMemory);
                }
            }
            Ok(words)
        }
        Err(error) => Err(status_without(error.kind())),
    }
}
