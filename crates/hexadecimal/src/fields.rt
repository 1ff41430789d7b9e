// Numbers of given widths as lines of hexadecimal, both ways. No code: the form is in specs/Fields.antt, and
// proofs/fields/BothWays.antt shows that a line reads as numbers exactly if it is theirs.
