// Theorems about a foyer display over the list of its calls, and no code: document 02, P11. They are about the definitions of the crate display
// that its calls are proved equal to. specs/ has them as statements: History (every number once), Answers (what is answered, by the history),
// Foyer (lists with ends and displays).
#![tactic(auto)]
