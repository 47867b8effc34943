// Theorems that hold of every call and of every list of calls, and no code: a sound state stays sound, clocks never fall, and what goes
// out or is handed out as Late is right. They are about the definitions of the crate end that the calls of the product are proved equal to.
#![tactic(auto)]
