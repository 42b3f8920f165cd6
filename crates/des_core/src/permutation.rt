ghost use Rattle.std.specs.Prelude.{◌≡◌, ◌^◌, ◌<◌, ◌≤◌, ◌&&◌, length, IsTrue, nat_le};
ghost use Rattle.std.specs.List.{list_all};
ghost use Rattle.des_core.specs.Bits.{bits_of};
ghost use Rattle.des_core.specs.Exchanges.{exchanged};
ghost use Rattle.des_core.specs.Permutations.{initial_permutation, final_permutation};
ghost use Rattle.des_core.specs.Des.{bits_by_table};

/// The bits that a table takes from the lowest `width` bits of a word.
pub fn permute(table: &[u8], width: u32, word: u64) -> u64
    requires few { length table.now ≤ 64 }
    requires wide { width ≤ 64 }
    requires places { IsTrue (list_all (λ place. nat_le 1 place && nat_le place width) table.now) }
    ensures bits { bits_of (length table.now) result ≡ bits_by_table table.now (bits_of width word) }
    ensures bound { result < 2 ^ length table.now }
{
    let mut out = 0u64;
    for place in table {
        out = out << 1 | word >> (width - *place as u32) & 1;
    }
    out
}

/// Each bit of the mask exchanged with the one `shift` places above it.
fn exchange(shift: u32, mask: u64, word: u64) -> u64
    requires { shift < 64 }
    ensures { result ≡ exchanged shift mask word }
{
    let differing = (word ^ word >> shift) & mask;
    word ^ differing ^ differing << shift
}

/// The initial permutation, by five exchanges.
pub fn permute_initially(word: u64) -> u64
    ensures { bits_of 64 result ≡ bits_by_table initial_permutation (bits_of 64 word) }
{
    let fours = exchange(36, 0x0f0f_0f0f, word);
    let halves = exchange(48, 0x0000_ffff, fours);
    let pairs = exchange(30, 0xcccc_cccc, halves);
    let bytes = exchange(24, 0xff00_ff00, pairs);
    exchange(33, 0x5555_5555, bytes)
}

/// The final permutation: the exchanges of the initial one, from the last to the first.
pub fn permute_finally(word: u64) -> u64
    ensures { bits_of 64 result ≡ bits_by_table final_permutation (bits_of 64 word) }
{
    let bits = exchange(33, 0x5555_5555, word);
    let bytes = exchange(24, 0xff00_ff00, bits);
    let pairs = exchange(30, 0xcccc_cccc, bytes);
    let halves = exchange(48, 0x0000_ffff, pairs);
    exchange(36, 0x0f0f_0f0f, halves)
}
