// The reverse complement of packed letters, written a byte each: a block of them at a time is unpacked into a local.
ghost use Rattle.std.specs.Prelude.{◌≡◌, true, ◌-◌, ◌*◌, ◌≤◌, length};
ghost use Rattle.rules.specs.Bytes.{all, over};
ghost use Rattle.rules.specs.Letters.{is_letter};
ghost use Rattle.rules.specs.Altered.{part};
ghost use Rattle.rules.specs.Complement.{reverse_complement};
ghost use Rattle.rules.specs.Packed.{letters_in};
ghost use Rattle.packed.specs.Halves.{HoldsPairs};

use crate::unpack::unpack_part;
use sequences::write_revcomp;

// Writes the reverse complement of the letters from..to to the buffer's start: those before p are still to be turned.
pub(crate) fn write_turned(
    packed: &[u8],
    from: usize,
    to: usize,
    pairs: &[u16; 256],
    out: &mut [u8],
)
    requires holds_pairs { HoldsPairs pairs.now }
    requires from_le_to { from ≤ to }
    requires to_in_bounds { to ≤ length packed.now * 2 }
    requires packed_value { (all is_letter (part from to (letters_in packed.now)) ≡ true) × (to - from ≤ length out.old) }
    ensures { out.new ≡ over (reverse_complement (part from to (letters_in packed.now))) out.old }
{
    let mut p = to;
    let mut i = 0;
    // Kept: the blocks go from the end, and the last of them may be short: how far a turn moves back is computed in it.
    while from < p {
        let k = (p - from).min(64);
        let at = p - k;
        let mut block = [0u8; 64];
        unpack_part(packed, at, p, pairs, &mut block);
        write_revcomp(&block[..k], &mut out[i..]);
        p = at;
        i += k;
    }
}
