// The residue of a codon of three letter sets in a table that is lent, and the residues of plain codons.
#![tactic(auto)]

pub mod tables;
