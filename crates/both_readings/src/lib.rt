// When the two readings of a grammar agree (02, Note 5): what is asked of the grammar, and that runs are then the same.
// No function is here.
#![tactic(auto)]
