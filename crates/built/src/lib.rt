// What is promised of the image that is built from a sheet (02 [2]): definitions and theorems, and no code. See specs/Built.antt.
#![tactic(auto)]
