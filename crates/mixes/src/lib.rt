// What residues make together: B of D and N, Z of E and Q, and X of any others.
#![tactic(auto)]

ghost use Rattle.std.specs.Prelude.{◌≡◌};
ghost use Rattle.mixes.specs.Mixes.{is_asx, is_glx, mixed_with, joined};

// D, N or their mix B.
fn is_asx(residue: u8) -> bool
    ensures { result ≡ is_asx residue }
{
    (residue == b'D') | (residue == b'N') | (residue == b'B')
}

// E, Q or their mix Z.
fn is_glx(residue: u8) -> bool
    ensures { result ≡ is_glx residue }
{
    (residue == b'E') | (residue == b'Q') | (residue == b'Z')
}

// What a residue makes with another one.
fn mix(found: u8, residue: u8) -> u8
    ensures { result ≡ mixed_with found residue }
{
    if is_asx(found) & is_asx(residue) {
        return b'B';
    }
    if is_glx(found) & is_glx(residue) {
        b'Z'
    } else {
        b'X'
    }
}

// A residue beside what was found so far, which is 0 where there is none yet.
// Kept: 0 for none, as the definition `joined` has it; with an Option the reader of codons would fold one, and unwrap it at its end.
pub fn join(found: u8, residue: u8) -> u8
    ensures { result ≡ joined found residue }
{
    if found == 0 {
        return residue;
    }
    if residue == found {
        found
    } else {
        mix(found, residue)
    }
}
