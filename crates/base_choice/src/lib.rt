// No code: a choice by a test and rows in order, and the rules to prove with them, for the crates that read and write bytes.
#![tactic(auto)]
