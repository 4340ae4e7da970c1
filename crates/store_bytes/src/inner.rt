// Little-endian numbers in bytes, copies, and moves of slots. They require that all bytes lie inside the slices.
ghost use Rattle.std.specs.Prelude.{◌≡◌, ◌+◌, ◌*◌, ◌≤◌, ◌<◌, length};
ghost use Rattle.std.proofs.Math.Seq.{paste};
ghost use Rattle.store_bytes.specs.Bytes.{get16, get32, get64, put16, put32, put64};
ghost use Rattle.store_bytes.specs.Model.{move_slot, thin_by};

pub fn get_16(s: &[u8], at: usize) -> u16
    requires { at + 2 ≤ length s.now }
    ensures { result ≡ get16 s.now at }
{
    u16::from_le_bytes([s[at], s[at + 1]])
}

pub fn get_32(s: &[u8], at: usize) -> u32
    requires { at + 4 ≤ length s.now }
    ensures { result ≡ get32 s.now at }
{
    u32::from_le_bytes([s[at], s[at + 1], s[at + 2], s[at + 3]])
}

pub fn get_64(s: &[u8], at: usize) -> u64
    requires { at + 8 ≤ length s.now }
    ensures { result ≡ get64 s.now at }
{
    u64::from_le_bytes([
        s[at],
        s[at + 1],
        s[at + 2],
        s[at + 3],
        s[at + 4],
        s[at + 5],
        s[at + 6],
        s[at + 7],
    ])
}

pub fn put_16(s: &mut [u8], at: usize, x: u16)
    requires { at + 2 ≤ length s.old }
    ensures { s.new ≡ put16 s.old at x }
{
    s[at..at + 2].copy_from_slice(&x.to_le_bytes());
}

pub fn put_32(s: &mut [u8], at: usize, x: u32)
    requires { at + 4 ≤ length s.old }
    ensures { s.new ≡ put32 s.old at x }
{
    s[at..at + 4].copy_from_slice(&x.to_le_bytes());
}

pub fn put_64(s: &mut [u8], at: usize, x: u64)
    requires { at + 8 ≤ length s.old }
    ensures { s.new ≡ put64 s.old at x }
{
    s[at..at + 8].copy_from_slice(&x.to_le_bytes());
}

// Copies the first n bytes of `from` into `to`, from `at` on.
pub fn copy_in(to: &mut [u8], at: usize, from: &[u8], n: usize)
    requires n_in_bounds { at + n ≤ length to.old }
    requires n_in_bounds_2 { n ≤ length from.now }
    ensures { to.new ≡ paste to.old at from.now n }
{
    to[at..at + n].copy_from_slice(&from[..n]);
}

// Copies slot `from` to slot `to`, below it.
fn move_slot(store: &mut [u8], size: usize, from: usize, to: usize)
    requires size_in_bounds { from * size + size ≤ length store.old }
    requires to_lt_from { to < from }
    ensures { store.new ≡ move_slot size from to store.old }
{
    let (low, high) = store.split_at_mut(from * size);
    copy_in(low, to * size, high, size);
}

// Moves slot 2i into slot i, for i from 1 up to k: so no slot of even index is overwritten before it has moved.
pub fn thin(store: &mut [u8], size: usize, k: usize)
    requires size_in_bounds { 2 * k * size + size ≤ length store.old }
    requires k_bound { k ≤ 512 }
    ensures { store.new ≡ thin_by (move_slot size) k store.old }
{
    for i in 0..k {
        move_slot(store, size, 2 * (i + 1), i + 1);
    }
}
