// The complement of a letter.
ghost use Rattle.std.specs.Prelude.{◌≡◌, true};
ghost use Rattle.rules.specs.Letters.{is_letter};
ghost use Rattle.rules.specs.Complement.{complement};
ghost use Rattle.letters.specs.Sets.{HoldsComplements};

// The complements of the bytes 64 to 95, which are `@`, A to Z, and five more.
const COMPLEMENTS: [u8; 32] = *b"@TVGHEFCDIJMLKNOPQYSAUBWXRZ[\\]^_";

// The table of complements, to be loaded once and lent.
pub fn complements() -> [u8; 32]
    ensures { HoldsComplements result }
{
    COMPLEMENTS
}

// The complement of a letter, from the table.
pub fn complement_of(complements: &[u8; 32], b: u8) -> u8
    requires holds_complements { HoldsComplements complements.now }
    requires b_value { is_letter b ≡ true }
    ensures { result ≡ complement b }
{
    complements[usize::from(b % 32)]
}
