ghost use Rattle.std.specs.Prelude.{◌≡◌, ℕ, List, ◌*◌, ◌≤◌, length};
ghost use Rattle.triple_des.specs.Bits.{bits, pick};
ghost use Rattle.triple_des.specs.Nibbles.{AreTables};

/// The bits of a word that a table of places names, as a word, by a table for each four bits of the word,
/// the highest first.
pub fn permute_by(tables: &[[u64; 16]], word: u64) -> u64
    requires { length tables.now ≤ 16 }
    ensures { (places : List ℕ) → AreTables places tables.now
        → bits (length places) result ≡ pick places (bits (4 * length tables.now) word) }
{
    let mut out = 0;
    for index in 0..tables.len() {
        let four = (word >> (4 * index)) % 16;
        out ^= tables[tables.len() - 1 - index][four as usize];
    }
    out
}
