// The sample tables of paper 01 under one statement: see specs/. No code.
#![tactic(auto)]
