// The first stop among packed codons.
ghost use Rattle.std.specs.Prelude.{◌≡◌, ◌+◌, ◌-◌, ◌*◌, ◌/◌, ◌≤◌, ◌<◌, length};
ghost use Rattle.rules.specs.Altered.{part};
ghost use Rattle.rules.specs.Codons.{codon_rule};
ghost use Rattle.rules.specs.Translation.{exception_list, before_stop, whole_codons, folded_translated};
ghost use Rattle.rules.specs.Packed.{set_at, letters_in};
ghost use Rattle.codons.specs.Tables.{HoldsCode};

use crate::reading::{even_codon, odd_codon};
use rules::Exceptions;
use tables::residues_of;
use walks::first_stop_of;

// The residue of the codon at a place.
fn packed_codon(packed: &[u8], place: usize, table: usize, lut: &[u8; 4096]) -> u8
    requires holds_code { HoldsCode table lut.now }
    requires place_in_bounds { place + 3 ≤ length packed.now * 2 }
    ensures { result ≡ codon_rule table (set_at packed.now place) (set_at packed.now (place + 1)) (set_at packed.now (place + 2)) }
{
    let j = place / 2;
    if place % 2 == 0 {
        return even_codon(packed, j, table, lut);
    }
    odd_codon(packed, j, table, lut)
}

// The index of the first codon of the letters first..end that reads `*`, exceptions applied, or the number of whole codons.
pub(crate) fn packed_first_stop(
    packed: &[u8],
    first: usize,
    end: usize,
    table: usize,
    e: Exceptions,
) -> usize
    requires table_bound { (table < 3) × (e.count ≤ 16) }
    requires first_le_end { (first ≤ end) × (end ≤ length packed.now * 2) }
    ensures { result ≡ before_stop (folded_translated table (exception_list e) (whole_codons (part first end (letters_in packed.now)))) }
{
    let residues = residues_of(table);
    let read = |i: usize| packed_codon(packed, first + i * 3, table, &residues);
    first_stop_of((end - first) / 3, e, read)
}
