// A scan's tokens always have a text to show. No function is here.
#![tactic(auto)]
