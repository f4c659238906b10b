//! The bytes of the home, the header and the journal.
ghost use Rattle.std.specs.Prelude.{◌≡◌, ◌≤◌, ◌*◌, ◌==◌, ◌∷◌, ◌++◌, map, length, drop, Some, IsSome};
ghost use Rattle.std.specs.List.{starts_with};
ghost use Rattle.torn_store.specs.Layout.{framed, page_part, padded_page, changed_in, numbers_in, state_in};
ghost use Rattle.torn_store.specs.Writing.{header};

use arrayvec::ArrayVec;

/// The page of the gate.
pub const GATE: u8 = 0;

/// The first page of the home.
pub const HOME: u8 = 1;

/// The page of the header.
pub const HEADER: u8 = 18;

/// The first page of the journal.
pub const JOURNAL: u8 = 19;

/// The bytes of a state.
pub type State = ArrayVec<u8, 1024>;

/// A page, and the bytes for it.
#[derive(Clone, Copy)]
pub struct Block {
    pub page: u8,
    pub bytes: [u8; 64],
}

impl Default for Block {
    fn default() -> Self {
        Block {
            page: 0,
            bytes: [0; 64],
        }
    }
}

/// Makes `frame` a state behind its length.
pub fn framed(state: &[u8], frame: &mut ArrayVec<u8, 1026>)
    requires { length state.now ≤ 1024 }
    ensures { frame.new.items ≡ framed state.now }
{
    frame.clear();
    frame.push((state.len() / 256) as u8);
    frame.push((state.len() % 256) as u8);
    match frame.try_extend_from_slice(state) {
        Ok(()) => {}
        Err(_) => unreachable!(),
    }
}

/// The length of a state, as it stands before it in a frame.
pub fn length_bytes(state: &[u8]) -> [u8; 2]
    requires { length state.now ≤ 1024 }
    ensures { result ++ state.now ≡ framed state.now }
{
    [(state.len() / 256) as u8, (state.len() % 256) as u8]
}

/// The bytes from a place on.
fn from_byte(bytes: &[u8], at: usize) -> &[u8]
    ensures { result.now ≡ drop at bytes.now }
{
    &bytes[at.min(bytes.len())..]
}

/// Whether these bytes and those behind them begin with a part.
fn begin_with(near: &[u8], far: &[u8], part: &[u8]) -> bool
    ensures { result ≡ starts_with ◌==◌ (near.now ++ far.now) part.now }
{
    let (head, tail) = part.split_at(near.len().min(part.len()));
    near.starts_with(head) && far.starts_with(tail)
}

/// Whether a home that begins with these bytes, and those behind them, has a part at the page of this place. The
/// bytes lie in two pieces, so that a state needs no copy behind its length.
fn has_part(front: &[u8], behind: &[u8], place: usize, part: &[u8]) -> bool
    requires { place ≤ 17 }
    ensures { result ≡ starts_with ◌==◌ (drop (64 * place) (front.now ++ behind.now)) part.now }
{
    let at = 64 * place;
    let near = from_byte(front, at);
    let far = from_byte(behind, at.saturating_sub(front.len()));
    begin_with(near, far, part)
}

/// The part of a frame in a home page.
fn part_of(frame: &[u8], place: usize) -> &[u8]
    requires { place ≤ 17 }
    ensures part { result.now ≡ page_part frame.now place }
    ensures short { length result.now ≤ 64 }
{
    let rest = from_byte(frame, 64 * place);
    &rest[..rest.len().min(64)]
}

/// A page that begins with this part.
fn filled(part: &[u8]) -> [u8; 64]
    requires { length part.now ≤ 64 }
    ensures { result ≡ padded_page part.now }
{
    let mut page = [0; 64];
    page[..part.len()].copy_from_slice(part);
    page
}

/// Makes `blocks` the home pages that a frame changes, where the home begins with these bytes, and those behind them.
pub fn changed_in(front: &[u8], behind: &[u8], frame: &[u8], blocks: &mut ArrayVec<Block, 17>)
    requires { length frame.now ≤ 1026 }
    ensures { blocks.new.items ≡ changed_in (front.now ++ behind.now) frame.now }
{
    blocks.clear();
    for place in 0..frame.len().div_ceil(64) {
        let part = part_of(frame, place);
        if has_part(front, behind, place, part) {
            continue;
        }
        blocks.push(Block {
            page: place as u8 + 1,
            bytes: filled(part),
        });
    }
}

/// A header that names the pages of these blocks.
pub fn header_of(blocks: &[Block]) -> [u8; 64]
    requires { length blocks.now ≤ 17 }
    ensures { result ≡ header blocks.now }
{
    let mut names = ArrayVec::<u8, 18>::new();
    names.push(blocks.len() as u8);
    for block in blocks {
        names.push(block.page);
    }
    filled(&names)
}

/// The numbers in a header.
pub fn numbers_of(header: &[u8; 64]) -> ArrayVec<u8, 17>
    requires { IsSome (numbers_in header.now) }
    ensures { numbers_in header.now ≡ Some result.items }
{
    let mut numbers = ArrayVec::new();
    let count = header[0] as usize;
    match numbers.try_extend_from_slice(&header[1..1 + count]) {
        Ok(()) => numbers,
        Err(_) => unreachable!(),
    }
}

/// The state in a home.
pub fn state_of(bytes: &[u8; 1088]) -> State
    requires { IsSome (state_in bytes.now) }
    ensures { state_in bytes.now ≡ Some result.items }
{
    let length = u16::from_be_bytes([bytes[0], bytes[1]]) as usize;
    let mut state = State::new();
    match state.try_extend_from_slice(&bytes[2..2 + length]) {
        Ok(()) => state,
        Err(_) => unreachable!(),
    }
}
