//! The bytes of a list of messages, and how they change.
ghost use Rattle.std.specs.Prelude.{◌≡◌, ◌≤◌, ◌+◌, ◌*◌, ◌∷◌, ◌++◌, [], length, drop, slice_get, slice_index, Some};
ghost use Rattle.arrayvec.specs.ArrayVec.{array_vec_len};
ghost use Rattle.capture_store.specs.SeenCaptureList.{MayAdd};
ghost use Rattle.capture_store.specs.Spelling.{IsCaptureMessage, IsState, HasFirst, counted_message, list_of_state};

use arrayvec::ArrayVec;

/// The bytes of a state of the store.
pub(crate) type State = ArrayVec<u8, 1024>;

/// The state of no messages.
pub(crate) const NONE: [u8; 2] = [VERSION, 0];

/// The first byte of a state.
const VERSION: u8 = 1;

/// Appends bytes for which there is room.
fn append(out: &mut State, bytes: &[u8])
    requires { array_vec_len out.old + length bytes.now ≤ 1024 }
    ensures items { out.new.items ≡ out.old.items ++ bytes.now }
    ensures len { array_vec_len out.new ≡ array_vec_len out.old + length bytes.now }
{
    if out.try_extend_from_slice(bytes).is_err() {
        unreachable!();
    }
}

/// Appends a message behind its length.
fn append_entry(out: &mut State, message: &[u8])
    requires { array_vec_len out.old + 2 + length message.now ≤ 1024 }
    ensures { out.new.items ≡ out.old.items ++ counted_message message.now }
{
    let size = [(message.len() / 256) as u8, (message.len() % 256) as u8];
    append(out, &size);
    append(out, message);
}

/// How many messages a state has.
pub(crate) fn count_in(state: &[u8]) -> u8
    requires { IsState state.now }
    ensures { result ≡ length (list_of_state state.now) }
{
    state[1]
}

/// The length of the first message of a state.
fn first_size(state: &[u8]) -> usize
    requires { 4 ≤ length state.now }
    ensures { result ≡ slice_index state.now 2 * 256 + slice_index state.now 3 }
{
    usize::from(state[2]) * 256 + usize::from(state[3])
}

/// The first message of a state that has one.
pub(crate) fn first_in(state: &[u8]) -> &[u8]
    requires { HasFirst state.now }
    ensures first { slice_get (list_of_state state.now) 0 ≡ Some result.now }
    ensures fits { IsCaptureMessage result.now }
{
    let end = 4 + first_size(state);
    &state[4..end]
}

/// Makes `out` the state with one more message behind the others.
pub(crate) fn put_longer(state: &[u8], message: &[u8], out: &mut State)
    requires state { IsState state.now }
    requires may { MayAdd (list_of_state state.now) message.now }
    ensures state { IsState out.new.items }
    ensures list { list_of_state out.new.items ≡ list_of_state state.now ++ message.now ∷ [] }
{
    out.clear();
    append(out, &[VERSION, count_in(state) + 1]);
    append(out, &state[2..]);
    append_entry(out, message);
}

/// Makes `out` the state without the first message.
pub(crate) fn put_shorter(state: &[u8], out: &mut State)
    requires first { HasFirst state.now }
    requires fits { length state.now ≤ 1024 }
    ensures state { IsState out.new.items }
    ensures list { list_of_state out.new.items ≡ drop 1 (list_of_state state.now) }
{
    let end = 4 + first_size(state);
    out.clear();
    append(out, &[VERSION, count_in(state) - 1]);
    append(out, &state[end..]);
}
