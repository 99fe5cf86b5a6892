// What the written file is: read back it gives what was written, and a file that is read and written again is the same file.
// No function is here.
#![tactic(auto)]
