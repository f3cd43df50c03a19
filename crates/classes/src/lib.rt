// The class of a change, by what is deleted and inserted and the residues there.
#![tactic(auto)]

ghost use Rattle.std.specs.Prelude.{◌≡◌};
ghost use Rattle.rules.specs.Record.{class_by_counts, class_by};

use rules::Class;

// The class by what is deleted and inserted alone.
fn class_by_counts(deleted: usize, inserted: usize, copy: bool) -> Class
    ensures { result ≡ class_by_counts deleted inserted copy }
{
    if inserted == 1 && deleted == 1 {
        Class::Substitution
    } else if inserted == 0 {
        Class::Deletion
    } else if deleted == 0 {
        if copy {
            Class::Duplication
        } else {
            Class::Insertion
        }
    } else {
        Class::Delins
    }
}

// The first class whose test holds; the residues of R and A there are 0 where the protein has ended.
pub fn class_of(
    number: usize,
    deleted: usize,
    inserted: usize,
    reference: u8,
    altered: u8,
    flag: bool,
    copy: bool,
) -> Class
    ensures { result ≡ class_by number deleted inserted reference altered flag copy }
{
    if number == 1 {
        return Class::StartLost;
    }
    if deleted != 0 && reference == b'*' {
        return Class::Extension;
    }
    if altered == b'*' {
        return Class::StopGained;
    }
    if flag {
        return Class::Frameshift;
    }
    class_by_counts(deleted, inserted, copy)
}
