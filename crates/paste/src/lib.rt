// Bytes stored in a lent buffer.
#![tactic(auto)]

ghost use Rattle.std.specs.Prelude.{◌+◌, ◌-◌, ◌*◌, ◌%◌, ◌≤◌, ◌≡◌, length};
ghost use Rattle.std.proofs.Math.Seq.{slice};
ghost use Rattle.paste.specs.Pasted.{pasted};
ghost use Rattle.paste.specs.Private.{copied};

// Stores bytes in out from a place on, if they fit there; else out is unchanged.
pub fn paste(out: &mut [u8], at: usize, bytes: &[u8])
    ensures { out.new ≡ pasted out.old at bytes.now }
{
    if out.len() < at {
        return;
    }
    if out.len() - at < bytes.len() {
        return;
    }
    copy_all(out, at, bytes)
}

// Stores all the bytes. 4 to 63 bytes are copied as two parts of a fixed size, which may overlap, so that no loop depends on
// their number.
fn copy_all(out: &mut [u8], at: usize, bytes: &[u8])
    requires { at + length bytes.now ≤ length out.old }
    ensures { out.new ≡ pasted out.old at bytes.now }
{
    let n = bytes.len();
    if 64 <= n {
        return copy_each(out, at, bytes);
    }
    if 32 <= n {
        return copy_ends(out, at, bytes, 32);
    }
    if 16 <= n {
        return copy_ends(out, at, bytes, 16);
    }
    if 8 <= n {
        return copy_ends(out, at, bytes, 8);
    }
    if 4 <= n {
        return copy_fours(out, at, bytes);
    }
    copy_each(out, at, bytes)
}

// Stores all the bytes, one after the other.
fn copy_each(out: &mut [u8], at: usize, bytes: &[u8])
    requires { at + length bytes.now ≤ length out.old }
    ensures { out.new ≡ pasted out.old at bytes.now }
{
    let mut i = 0;
    while i < bytes.len() {
        let to = at + i;
        out[to] = bytes[i];
        i += 1;
    }
}

// Stores the first m bytes and the last m, which together are all of them.
fn copy_ends(out: &mut [u8], at: usize, bytes: &[u8], m: usize)
    requires { (at + length bytes.now ≤ length out.old) × (m ≤ length bytes.now) × (length bytes.now ≤ 2 * m) × (m % 8 ≡ 0) }
    ensures { out.new ≡ pasted out.old at bytes.now }
{
    let n = bytes.len();
    copy_blocks(out, at, bytes, 0, m);
    copy_blocks(out, at, bytes, n - m, n)
}

// Stores the bytes from a up to e, eight at a time.
fn copy_blocks(out: &mut [u8], at: usize, bytes: &[u8], a: usize, e: usize)
    requires { (at + length bytes.now ≤ length out.old) × (a ≤ e) × (e ≤ length bytes.now) × ((e - a) % 8 ≡ 0) }
    ensures { out.new ≡ copied out.old at bytes.now a e }
{
    let mut i = a;
    while i < e {
        copy_eight(out, at, bytes, i);
        i += 8;
    }
}

// Stores the eight bytes from i on. All are read before the first is stored, so that the compiler can make one load and one
// store of them.
fn copy_eight(out: &mut [u8], at: usize, bytes: &[u8], i: usize)
    requires { (at + length bytes.now ≤ length out.old) × (i + 8 ≤ length bytes.now) }
    ensures { out.new ≡ copied out.old at bytes.now i (i + 8) }
{
    let j = i + 4;
    let x = four_at(bytes, i);
    let y = four_at(bytes, j);
    put_four(out, at + i, x);
    put_four(out, at + j, y)
}

// Stores the first four bytes and the last four, which together are all of them.
fn copy_fours(out: &mut [u8], at: usize, bytes: &[u8])
    requires { (at + length bytes.now ≤ length out.old) × (4 ≤ length bytes.now) × (length bytes.now ≤ 8) }
    ensures { out.new ≡ pasted out.old at bytes.now }
{
    let n = bytes.len();
    copy_four(out, at, bytes, 0);
    copy_four(out, at, bytes, n - 4)
}

// Stores the four bytes from i on.
fn copy_four(out: &mut [u8], at: usize, bytes: &[u8], i: usize)
    requires { (at + length bytes.now ≤ length out.old) × (i + 4 ≤ length bytes.now) }
    ensures { out.new ≡ copied out.old at bytes.now i (i + 4) }
{
    put_four(out, at + i, four_at(bytes, i))
}

// The four bytes from i on.
fn four_at(bytes: &[u8], i: usize) -> [u8; 4]
    requires { i + 4 ≤ length bytes.now }
    ensures { result ≡ slice i (i + 4) bytes.now }
{
    [bytes[i], bytes[i + 1], bytes[i + 2], bytes[i + 3]]
}

// Stores four bytes from a place on.
fn put_four(out: &mut [u8], to: usize, b: [u8; 4])
    requires { to + 4 ≤ length out.old }
    ensures { out.new ≡ pasted out.old to b }
{
    out[to] = b[0];
    out[to + 1] = b[1];
    out[to + 2] = b[2];
    out[to + 3] = b[3];
}
