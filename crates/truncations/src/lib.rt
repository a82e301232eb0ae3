// The adder, the sign and the truncations of kinds 6, 7 and 8 on words (document 01, "Adder, bits and sign" and
// "Orders"): definitions and laws alone.
#![tactic(auto)]
