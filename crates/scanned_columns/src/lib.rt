// The columns of a scan, beside the rule that document 01 had, and over letters of UTF-8. No function is here.
#![tactic(auto)]
