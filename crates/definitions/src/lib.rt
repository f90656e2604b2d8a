// No code: the definitions of decoding, encoding, expanding and text, computed at rows of the outside vectors.
#![tactic(auto)]
