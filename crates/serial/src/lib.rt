// No code: the serial statement (specs/Serial.antt) and its proof, over the steps that the machine is proved to take.
#![tactic(auto)]
