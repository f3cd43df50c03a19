// The words that lines are made of.
ghost use Rattle.std.specs.Prelude.{◌≡◌, ◌++◌, ◌+◌, ◌≤◌, ◌<◌, length, set};
ghost use Rattle.rules.specs.Bytes.{bytes, over};
ghost use Rattle.rules.specs.Run.{decimal_of, decimal, shown, refused_line, shown_first, line_feed};
ghost use Rattle.text_prints.specs.Words.{silent_line};

// The last `left` decimal digits of a number, no leading zero.
fn write_digits(left: usize, n: usize, out: &mut [u8]) -> usize
    requires { length (decimal_of left n) ≤ length out.old }
    ensures value { result ≡ length (decimal_of left n) }
    ensures out_after { out.new ≡ over (decimal_of left n) out.old }
{
    if left == 0 {
        return 0;
    }
    if n < 10 {
        out[0] = b'0' + n as u8;
        return 1;
    }
    let k = write_digits(left - 1, n / 10, out);
    out[k] = b'0' + (n % 10) as u8;
    k + 1
}

// A space and a number.
pub(crate) fn write_spaced_decimal(n: usize, out: &mut [u8]) -> usize
    requires { length (bytes " " ++ decimal n) ≤ length out.old }
    ensures value { result ≡ length (bytes " " ++ decimal n) }
    ensures out_after { out.new ≡ over (bytes " " ++ decimal n) out.old }
{
    let k = bytewise::copy(b" ", out);
    k + write_digits(6, n, &mut out[k..])
}

// A space and residues, `-` for none.
pub(crate) fn write_spaced(residues: &[u8], out: &mut [u8]) -> usize
    requires { length (bytes " " ++ shown residues.now) ≤ length out.old }
    ensures value { result ≡ length (bytes " " ++ shown residues.now) }
    ensures out_after { out.new ≡ over (bytes " " ++ shown residues.now) out.old }
{
    if residues.len() == 0 {
        return bytewise::copy(b" -", out);
    }
    let k = bytewise::copy(b" ", out);
    k + bytewise::copy(residues, &mut out[k..])
}

// Behind a duplication, a space and the number of its first residue.
pub(crate) fn write_first(first: usize, out: &mut [u8]) -> usize
    requires { length (shown_first first) ≤ length out.old }
    ensures value { result ≡ length (shown_first first) }
    ensures out_after { out.new ≡ over (shown_first first) out.old }
{
    if first == 0 {
        return 0;
    }
    write_spaced_decimal(first, out)
}

pub(crate) fn write_refused(n: usize, out: &mut [u8]) -> usize
    requires { length (refused_line n) ≤ length out.old }
    ensures value { result ≡ length (refused_line n) }
    ensures out_after { out.new ≡ over (refused_line n) out.old }
{
    let k = bytewise::copy(b"refused", out);
    k + write_spaced_decimal(n, &mut out[k..])
}

pub(crate) fn write_silent(number: usize, residue: u8, out: &mut [u8]) -> usize
    requires { length (silent_line number residue) ≤ length out.old }
    ensures value { result ≡ length (silent_line number residue) }
    ensures out_after { out.new ≡ over (silent_line number residue) out.old }
{
    let pair = [b' ', residue, b' ', residue];
    let k = bytewise::copy(b"silent", out);
    let m = k + write_spaced_decimal(number, &mut out[k..]);
    m + bytewise::copy(&pair, &mut out[m..])
}

// A line feed behind the line.
pub(crate) fn close_line(size: usize, out: &mut [u8]) -> usize
    requires { size < length out.old }
    ensures value { result ≡ size + 1 }
    ensures out_after { out.new ≡ set out.old size line_feed }
{
    out[size] = b'\n';
    size + 1
}
