// Writes and reads lists of numbers, eight bytes each.
ghost use Rattle.std.specs.Prelude.{◌≡◌, ◌+◌, ◌*◌, ◌≤◌, length, get_or};
ghost use Rattle.std.proofs.Math.Seq.{paste};
ghost use Rattle.rle_slots.specs.Model.Slots.{put_numbers, numbers_in};

use store_bytes::inner as little;

// Number `i` of a list in bytes.
pub fn number(bytes: &[u8], i: usize) -> u64
    requires { 8 * i + 8 ≤ length bytes.now }
    ensures { result ≡ get_or (numbers_in bytes.now) i 0 }
{
    little::get_64(bytes, 8 * i)
}

// Writes the first n numbers of `from` into `to`, from byte `at` on.
pub fn put_numbers(to: &mut [u8], at: usize, from: &[u64], n: usize)
    requires { (at + 8 * n ≤ length to.old) × (n ≤ length from.now) }
    ensures { to.new ≡ put_numbers to.old at from.now n }
{
    for i in 0..n {
        little::put_64(to, at + 8 * i, from[i]);
    }
}

// Reads the first n numbers of `from` into the first n places of `to`.
pub fn take_numbers(to: &mut [u64], from: &[u8], n: usize)
    requires { (n ≤ length to.old) × (8 * n ≤ length from.now) }
    ensures { to.new ≡ paste to.old 0 (numbers_in from.now) n }
{
    for i in 0..n {
        to[i] = number(from, i);
    }
}
