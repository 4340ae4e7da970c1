// Functions that require that all lies inside the slices: they find a separator, or print into a lent slice.
ghost use Rattle.std.specs.Prelude.{◌≡◌, ◌∷◌, ◌+◌, ◌≤◌, length, drop};
ghost use Rattle.std.proofs.Math.IntN.{sub_ℕ};
ghost use Rattle.std.proofs.Math.Seq.{paste};
ghost use Rattle.listing_text.specs.Show.{show, show_ℤ};
ghost use Rattle.listing_text.specs.Model.{up_to, Wrote};

// The index of the first `sep` from `at` on, or the length.
pub fn find(s: &[u8], at: usize, sep: u8) -> usize
    requires { at ≤ length s.now }
    ensures { (at ≤ result) × (result ≤ length s.now) × (result ≡ at + up_to sep (drop at s.now)) }
{
    match s[at..].iter().position(|&b| b == sep) {
        Some(i) => at + i,
        None => s.len(),
    }
}

// Copies all of `src` into `dst` from index `at` on, and returns the index after it.
pub fn put(dst: &mut [u8], at: usize, src: &[u8]) -> usize
    requires { at + length src.now ≤ length dst.old }
    ensures { (result ≡ at + length src.now) × (dst.new ≡ paste dst.old at src.now (length src.now)) }
{
    let end = at + src.len();
    dst[at..end].copy_from_slice(src);
    end
}

// Writes n in decimal, and returns the index after it.
pub fn print_u64(out: &mut [u8], at: usize, n: u64) -> usize
    requires { at + 20 ≤ length out.old }
    ensures { Wrote out.old at (show n) out.new result × (result ≤ at + 20) }
{
    let mut buffer = itoa::Buffer::new();
    put(out, at, buffer.format(n).as_bytes())
}

// Writes the position of an index, counted from the origin, and returns the index after it.
pub fn print_position(out: &mut [u8], at: usize, index: u64, origin: u64) -> usize
    requires { at + 21 ≤ length out.old }
    ensures { Wrote out.old at (show_ℤ (sub_ℕ index origin)) out.new result × (result ≤ at + 21) }
{
    if index < origin {
        return print_minus(out, at, origin - index);
    }
    print_u64(out, at, index - origin)
}

fn print_minus(out: &mut [u8], at: usize, n: u64) -> usize
    requires { at + 21 ≤ length out.old }
    ensures { Wrote out.old at (45 ∷ show n) out.new result × (result ≤ at + 21) }
{
    let next = put(out, at, b"-");
    print_u64(out, next, n)
}
