// The curve's arithmetic (document 01, "The curve"): the scaled sum Y, the line C and the sum of words, definitions
// and laws alone.
#![tactic(auto)]
