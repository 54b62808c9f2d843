// The plain list of whole maps, traces of calls, and what condition 3 stands on. Definitions and theorems only; there is no code.
#![tactic(auto)]
