//! Blocks that are enciphered, and the code of a text.
ghost use Rattle.std.specs.Prelude.{◌≡◌, ◌*◌, IfOk, replicate};
ghost use Rattle.triple_des.specs.Des.{enciphered, des};
ghost use Rattle.triple_des.specs.Mac.{mac};
ghost use Rattle.bench_work.specs.Work.{repeated};

use std::alloc::{AllocError, Global};
use triple_des::{Des, Key16, mac};

/// A block of zeros, enciphered so many times over.
pub fn enciphered_over(des: &Des, count: u32) -> [u8; 8]
    ensures { result ≡ repeated count (enciphered des.now) (replicate 8 0) }
{
    let mut block = [0; 8];
    for _done in 0..count {
        let next = des.encipher(block);
        block = next;
    }
    block
}

/// A block of zeros, enciphered so many times over, each time under the block itself as the key.
pub fn keyed_over(count: u32) -> [u8; 8]
    ensures { result ≡ repeated count (λ key. des key key) (replicate 8 0) }
{
    let mut key = [0; 8];
    for _turn in 0..count {
        let next = Des::new(key).encipher(key);
        key = next;
    }
    key
}

/// The message authentication code of so many blocks of zeros.
pub fn code_of_zeros(alloc: Global, key: &Key16, count: u32) -> Result<[u8; 8], AllocError>
    ensures { IfOk result (λ code. code ≡ mac key.now (replicate (8 * count) 0)) }
{
    let text = vec![in alloc; 0u8; 8 * count as usize]?;
    Ok(mac(key, text.as_slice()))
}
