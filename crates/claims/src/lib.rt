// No code: the page that names what is claimed (proofs/Claims.antt), and the paper's starred examples (specs/Starred.antt).
#![tactic(auto)]
