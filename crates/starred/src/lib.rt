// Document 01's starred bench samples, 'proved together, as one statement over a list of samples':
// specs/Starred.antt, and its proof. There is no code.
#![tactic(auto)]
