ghost use Rattle.std.specs.Prelude.{◌≡◌, ◌≢◌, ℕ, List, ◌≤◌, length, Some, None, OnOk};
ghost use Rattle.std.specs.List.{AllByRecursion};
ghost use Rattle.std.specs.Result.{result_err};
ghost use Rattle.env_map.specs.Entries.{value_of};
ghost use Rattle.env_map.specs.Gathered.{gathered, primitives};
ghost use Rattle.ber_tlv.specs.Walked.{walk_behind, walk_of};

use crate::env::{Env, EnvFault};
use ber_tlv::{Cursor, TlvFault, is_constructed};

/// Why the objects of a byte string are not all put.
#[derive(Clone, Copy, PartialEq, Eq, Debug)]
pub enum GatherFault {
    /// No object stands where one should.
    Coding(TlvFault),
    /// An object is not put.
    Put(EnvFault),
}

/// Puts the primitive data objects of a byte string, at any depth, in the order of their first bytes
/// (EMV 4.3 Book 3 section 10.2). The first fault ends it, and what stands before it has been put.
pub fn gather(env: &mut Env, bytes: &[u8]) -> Result<(), GatherFault>
    ensures entries { env.new ≡ (gathered env.old (walk_of bytes.now)).entries }
    ensures fault { result_err result ≡ (gathered env.old (walk_of bytes.now)).fault }
    // The map has each primitive object, what it had before, and nothing else.
    ensures objects { OnOk result (AllByRecursion (λ item. value_of item.tag env.new ≡ Some item.value) (primitives (walk_of bytes.now))) }
    ensures kept { (tag : ℕ) (value : List ℕ) → value_of tag env.old ≡ Some value → value_of tag env.new ≡ Some value }
    ensures only { (tag : ℕ) → value_of tag env.old ≡ None
        → AllByRecursion (λ item. item.tag ≢ tag) (primitives (walk_of bytes.now)) → value_of tag env.new ≡ None }
{
    gather_behind(env, &mut Cursor::new(bytes))
}

#[tactic(auto, using(crate::proofs::TwoWalks::gathered_on, crate::proofs::TwoWalks::gathered_fault))]
fn gather_behind(env: &mut Env, cursor: &mut Cursor) -> Result<(), GatherFault>
    requires { cursor.old.place ≤ length cursor.old.bytes }
    ensures entries { env.new ≡ (gathered env.old (walk_behind cursor.old.bytes cursor.old.place)).entries }
    ensures fault { result_err result ≡ (gathered env.old (walk_behind cursor.old.bytes cursor.old.place)).fault }
{
    loop {
        match cursor.next() {
            Ok(Some(item)) => {
                if is_constructed(item.tag) {
                    gather_behind(env, &mut cursor.inside(&item))?;
                } else if let Err(fault) = env.put(item.tag, item.value) {
                    return Err(GatherFault::Put(fault));
                }
            }
            Ok(None) => return Ok(()),
            Err(fault) => return Err(GatherFault::Coding(fault)),
        }
    }
}
